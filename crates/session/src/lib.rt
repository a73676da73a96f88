// A session: the plan typed, orders rehearsed, each line answered, the input in any pieces.
// The promises stand in specs/Promises.antt.
#![tactic(auto)]

mod draw;
mod feed;
mod hear;
mod turn;

pub use feed::{feed_chunk, fresh_session, last_line};
use house::Plan;
use lines::LineState;
use rehearsal::Night;

// the plan so far; whether its `districts` line has come, and whether an order has
#[derive(Clone, Copy)]
pub struct Desk {
    pub plan: Plan,
    pub drawn: bool,
    pub fixed: bool,
}

// the room of one answer, the bytes of input that are read at once, and the room of their answers: at most one for each byte
pub const ANSWER_ROOM: usize = 14;

pub const CHUNK: usize = 2048;

pub const CHUNK_ROOM: usize = ANSWER_ROOM * CHUNK;

// the line that is coming, the plan and the night
#[derive(Clone, Copy)]
pub struct Session {
    pub night: Night,
    pub desk: Desk,
    pub line: LineState,
}
