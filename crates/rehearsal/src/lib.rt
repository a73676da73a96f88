// Document 01, 'The rehearsal': all boxes of a plan and one post, one order at a time.
// The definition stands in specs/Night.antt, the promises in specs/Promises.antt.
#![tactic(auto)]

mod exists;
mod judging;
mod nights;
mod settling;

use boxes::BoxState;
pub use exists::{Place, find, known_sound};
pub use judging::judge;
pub use nights::{fresh_night, rehearse};
pub use settling::{settle, step};

// a night: the boxes, and how many bytes of the post hold records
#[derive(Clone, Copy)]
pub struct Night {
    pub boxes: [BoxState; house::MOST_BOXES],
    pub used: usize,
}
