// How many ballots, stamps and rows each kind of record has, where their counts stand, how long it is, and whether it has a job.
// The table stands in specs/Format.antt, the places in specs/Bytes.antt.
ghost use Rattle.std.specs.Prelude.{◌≡◌, ◌≤◌};
ghost use Rattle.records.specs.Bytes.{stamps_at, rows_at, length_of};
ghost use Rattle.records.specs.Format.{known, entry, or_plan, ballots_in, stamps_in, rows_in, has_job};
ghost use Rattle.records.specs.Rec.{no_record};

use crate::{Part, Record};
use house::{Ballot, BoxNo, Plan, Row, Stamp};

pub const MOST_KIND: u8 = 8;

// a count that the plan decides
const BY_PLAN: u8 = 255;

// ballots, stamps, rows of each kind, and whether it has a job.
// Stays: a table of numbers with one for 'by plan', since document 01 names this form: one constant table by kind, read by reader and writer alike.
const FORMAT: [u8; 36] = [
    // no kind 0
    0, 0, 0, 0,
    // 1 MULTICAST
    0, 0, 0, 1,
    // 2 ACCEPT
    1, 1, 0, 1,
    // 3 ACCEPT_ACK
    BY_PLAN, 0, 0, 1,
    // 4 DELIVER
    1, 2, 0, 1,
    // 5 NEWLEADER
    1, 0, 0, 0,
    // 6 NEWLEADER_ACK
    2, 1, BY_PLAN, 0,
    // 7 NEW_STATE
    1, 1, BY_PLAN, 0,
    // 8 NEWSTATE_ACK
    1, 0, 0, 0,
];

#[tactic(auto, unfolding(crate::specs::Format::known))]
pub fn is_known(kind: u8) -> bool
    ensures { result ≡ known kind }
{
    (1..=MOST_KIND).contains(&kind)
}

// an entry of the table, 0 beyond it
#[tactic(auto, using(std::proofs::lemmas::Option::gets), unfolding(crate::specs::Format::entry))]
fn entry_of(kind: u8, i: u8) -> u8
    ensures { result ≡ entry kind i }
{
    let at = kind as usize * 4 + i as usize;
    FORMAT.get(at).copied().unwrap_or(0)
}

// the plan's number where the table says so
#[tactic(auto, unfolding(crate::specs::Format::or_plan, laws::specs::Choice::pick))]
fn or_plan(n: u8, count: u8) -> u8
    ensures { result ≡ or_plan n count }
{
    if count == BY_PLAN { n } else { count }
}

// how many ballots, stamps and rows a record of this kind has
#[tactic(auto, unfolding(crate::specs::Format::ballots_in))]
pub fn ballots_in(plan: Plan, kind: u8) -> u8
    ensures { result ≡ ballots_in plan kind }
{
    or_plan(plan.districts, entry_of(kind, 0))
}

#[tactic(auto, unfolding(crate::specs::Format::stamps_in))]
pub fn stamps_in(kind: u8) -> u8
    ensures { result ≡ stamps_in kind }
{
    entry_of(kind, 1)
}

#[tactic(auto, unfolding(crate::specs::Format::rows_in))]
pub fn rows_in(plan: Plan, kind: u8) -> u8
    ensures { result ≡ rows_in plan kind }
{
    or_plan(plan.jobs, entry_of(kind, 2))
}

// where the count of the stamps stands, and that of the rows; each count is a byte, which bounds the places
#[tactic(auto, unfolding(crate::specs::Bytes::stamps_at))]
pub fn stamps_at(plan: Plan, kind: u8) -> usize
    ensures { (result ≡ stamps_at plan kind) × (result ≤ 771) }
{
    6 + ballots_in(plan, kind) as usize * Ballot::WIDTH
}

#[tactic(auto, unfolding(crate::specs::Bytes::rows_at))]
pub fn rows_at(plan: Plan, kind: u8) -> usize
    ensures { (result ≡ rows_at plan kind) × (result ≤ 2047) }
{
    stamps_at(plan, kind) + 1 + stamps_in(kind) as usize * Stamp::WIDTH
}

// how long a record of this kind is
#[tactic(auto, unfolding(crate::specs::Bytes::length_of))]
pub fn length_of(plan: Plan, kind: u8) -> usize
    ensures { (result ≡ length_of plan kind) × (result ≤ 5000) }
{
    rows_at(plan, kind) + 1 + rows_in(plan, kind) as usize * Row::WIDTH
}

#[tactic(auto, unfolding(crate::specs::Format::has_job))]
pub fn has_job(kind: u8) -> bool
    ensures { result ≡ has_job kind }
{
    entry_of(kind, 3) == 1
}

// the struct that carries no record
pub fn no_record() -> Record
    ensures { result ≡ no_record }
{
    Record {
        kind: 0,
        from: BoxNo(0),
        to: BoxNo(0),
        job: house::NO_JOB,
        ballots: [house::no_ballot(); house::DISTRICTS],
        stamps: [house::no_stamp(); crate::STAMPS],
        table: [house::no_row(); house::JOBS],
    }
}
