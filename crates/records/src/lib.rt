// Document 01, 'Records' and 'Answers': the record as a struct, its format, its meaning, its rules, and the answers.
// The definitions stand in specs/; a record is written by the room writer and read by the room reader.
#![tactic(auto)]

mod answers;
mod format;
mod parts;

pub use answers::{Answer, Refusal};
pub use format::{
    ballots_in, has_job, is_known, length_of, no_record, rows_at, rows_in, stamps_at, stamps_in,
};
use house::{Ballot, BoxNo, Row, Stamp};
pub use parts::Part;

// the kinds of a record
// Stays: numbers and no enum, since a Record may hold any, and RecordWritten and BytesReceived say that others are refused by 4 and 1.
pub const MULTICAST: u8 = 1;

pub const ACCEPT: u8 = 2;

pub const ACCEPT_ACK: u8 = 3;

pub const DELIVER: u8 = 4;

pub const NEWLEADER: u8 = 5;

pub const NEWLEADER_ACK: u8 = 6;

pub const NEW_STATE: u8 = 7;

pub const NEWSTATE_ACK: u8 = 8;

// the most stamps that a record has
pub const STAMPS: usize = 2;

#[derive(Clone, Copy)]
pub struct Record {
    pub kind: u8,
    pub from: BoxNo,
    pub to: BoxNo,
    pub job: u8,
    pub ballots: [Ballot; house::DISTRICTS],
    pub stamps: [Stamp; STAMPS],
    pub table: [Row; house::JOBS],
}

// what an ACCEPT says
#[derive(Clone, Copy)]
pub struct Proposal {
    pub ballot: Ballot,
    pub stamp: Stamp,
}

// what a DELIVER says
#[derive(Clone, Copy)]
pub struct Handout {
    pub ballot: Ballot,
    pub local: Stamp,
    pub global: Stamp,
}

// what a NEWLEADER_ACK says
#[derive(Clone, Copy)]
pub struct Ballotpaper {
    pub ballot: Ballot,
    pub cballot: Ballot,
    pub clock: Stamp,
    pub table: [Row; house::JOBS],
}

// what a NEW_STATE says
#[derive(Clone, Copy)]
pub struct NewState {
    pub ballot: Ballot,
    pub clock: Stamp,
    pub table: [Row; house::JOBS],
}
