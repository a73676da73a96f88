// Document 01, 'Numbers' and 'Orders': stamps, ballots, rows, the plan, marks and quorums, their limits, and the orders.
// The definitions stand in specs/: Limits, Pairs, Plan, Marks.
#![tactic(auto)]

mod marks;
mod pairs;
mod plans;
mod sound_plans;

pub use marks::{
    boxes_where, has_mark, home_boxes, mark, mark_if, marks_in, named_boxes, no_marks, only_boxes,
    other_boxes, quorum_each,
};
pub use pairs::{
    ballot_below, ballot_of, is_no_ballot, is_no_stamp, later_stamp, no_ballot, no_row, no_stamp,
    same_ballot, same_stamp, stamp_below, stamp_of, time_fits,
};
pub use plans::{
    ballot_in, boxes_of, home_of, is_box, is_job, is_office, named, none_or_in, office_of,
    quorum_of, same_home, size_of, stamp_named,
};
pub use sound_plans::plan_sound;

pub const MOST_DISTRICTS: u8 = 4;

// boxes of the largest plan
pub const MOST_BOXES: usize = 12;

pub const MOST_JOBS: u8 = 64;

// the same as lengths of arrays; and for how many pairs of job and district a box keeps an ACCEPT
pub const DISTRICTS: usize = MOST_DISTRICTS as usize;

pub const JOBS: usize = MOST_JOBS as usize;

pub const PAIRS: usize = JOBS * DISTRICTS;

// the phases of a job
// Stays: numbers and no enum, since `no_row` of specs/Pairs.antt and the phases of specs/Limits.antt, which may not change, are numbers.
pub const START: u8 = 0;

pub const PROPOSED: u8 = 1;

pub const ACCEPTED: u8 = 2;

pub const COMMITTED: u8 = 3;

pub const MOST_TIME: u32 = 1_000_000;

pub const MOST_NUMBER: u16 = 65_535;

pub const LEAST_TRAY: usize = 4_096;

pub const MOST_POST: usize = 65_536;

pub const NO_JOB: u8 = 255;

#[derive(Clone, Copy, Debug, PartialEq, Eq, PartialOrd, Ord)]
pub struct District(pub u8);

#[derive(Clone, Copy, Debug, PartialEq, Eq, PartialOrd, Ord)]
pub struct BoxNo(pub u8);

#[derive(Clone, Copy, Debug, PartialEq, Eq, PartialOrd, Ord)]
pub struct Stamp {
    pub time: u32,
    pub district: District,
}

#[derive(Clone, Copy, Debug, PartialEq, Eq, PartialOrd, Ord)]
pub struct Ballot {
    pub number: u16,
    pub owner: BoxNo,
}

#[derive(Clone, Copy, Debug, PartialEq, Eq)]
pub struct Row {
    pub phase: u8,
    pub local: Stamp,
    pub global: Stamp,
}

#[derive(Clone, Copy, Debug, PartialEq, Eq)]
pub struct Plan {
    pub districts: u8,
    pub jobs: u8,
    pub masks: [u8; JOBS],
}

// an order, with the numbers that were typed
#[derive(Clone, Copy, Debug, PartialEq, Eq)]
pub enum Order {
    Post(u32),
    Stand(u32),
    Retry(u32, u32),
    Cut(u32),
    Carry(u32),
}
