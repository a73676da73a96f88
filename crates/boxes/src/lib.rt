// Document 01, 'A box': its fields and what a step of it gives back. The eight kinds, the orders and soundness are defined in specs/.
// The code looks things up in a box and changes them, one at a time.
#![tactic(auto)]

mod change;
mod fresh;
mod look;
mod outcomes;

pub use change::{
    put_kept, put_listed, put_marks, put_mode, put_row, put_sent, put_table, put_vote,
};
pub use fresh::{cut_box, fresh_box, no_vote};
use house::{Ballot, BoxNo, Row, Stamp};
pub use look::{
    home_in, is_leader, is_recovering, kept_ballot, kept_stamp, last_stamp, listed_at, marks_at,
    on_list, raise, row_at,
};
pub use outcomes::{all_passed, done, refused};
use records::Answer;

#[derive(Clone, Copy, Debug, PartialEq, Eq)]
pub enum Status {
    Follower,
    Leader,
    Recovering,
}

// a job on the delivered list, with its global stamp
#[derive(Clone, Copy)]
pub struct Listed {
    pub job: u8,
    pub stamp: Stamp,
}

// what survives a cut
// Stays: a list with its count beside it, since the project's rule of fixed memory allows no Vec.
#[derive(Clone, Copy)]
pub struct Core {
    pub own: BoxNo,
    pub status: Status,
    pub clock: u32,
    pub ballot: Ballot,
    pub cballot: Ballot,
    pub table: [Row; house::JOBS],
    pub sent: [bool; house::JOBS],
    pub count: u8,
    pub list: [Listed; house::JOBS],
}

// a vote that is held, or none
// Stays: a flag beside the values, since `no_vote` of specs/Box.antt and `unvoted` of specs/Sound.antt, which may not change, say what no vote has in them.
#[derive(Clone, Copy)]
pub struct Vote {
    pub held: bool,
    pub voter: BoxNo,
    pub cballot: Ballot,
    pub clock: u32,
    pub table: [Row; house::JOBS],
}

// what a cut forgets: the ACCEPT kept for each pair of job and district, the marks, the vote
// Stays: two flat arrays side by side, since document 01 names this form for the 256 pairs of job and district.
#[derive(Clone, Copy)]
pub struct Volatile {
    pub kept_ballots: [Ballot; house::PAIRS],
    pub kept_stamps: [Stamp; house::PAIRS],
    pub marks: [u32; house::JOBS],
    pub vote: Vote,
}

#[derive(Clone, Copy)]
pub struct BoxState {
    pub core: Core,
    pub volatile: Volatile,
}

// done: the new box, the bytes and records written, and the job delivered; refused: the same box, 0 bytes, nothing
// Stays: five fields and no Result, since document 01 says of a refusal too which box is left, and that 0 bytes were written.
#[derive(Clone, Copy)]
pub struct Outcome {
    pub state: BoxState,
    pub used: usize,
    pub records: u16,
    pub answer: Answer,
    pub delivery: Option<u8>,
}
