// Answers, bytes and records as text in hex. The form of a record stands at the head of ../stdin.
// Nothing here asks the rules of a record: what is none is told by its own numbers (NO_BALLOT, NO_STAMP, NO_ROW).
use house::{Ballot, BoxNo, District, Row, Stamp};
use records::{Record, Refusal};
use std::io;

const NO_BALLOT: Ballot = Ballot {
    number: 0,
    owner: BoxNo(0),
};

const NO_STAMP: Stamp = Stamp {
    time: 0,
    district: District(0),
};

const NO_ROW: Row = Row {
    phase: 0,
    local: NO_STAMP,
    global: NO_STAMP,
};

// a space, and 0 for done or the number of the refusal
pub fn show_answer<T: Copy>(rt: &impl Print, answer: Result<T, Refusal>) -> io::Result<()> {
    let no = answer.err().map_or(0, u8::from);
    print!(rt; " {no}")
}

// a space, and the byte
fn show_byte(rt: &impl Print, b: u8) -> io::Result<()> {
    print!(rt; " {b:02x}")
}

// a space, and the bytes with nothing between them
pub fn show_bytes(rt: &impl Print, s: &[u8]) -> io::Result<()> {
    print!(rt; " ")?;
    for b in s {
        print!(rt; "{b:02x}")?;
    }
    Ok(())
}

// a ballot behind its place, unless it is none
fn show_ballot(rt: &impl Print, place: u8, b: Ballot) -> io::Result<()> {
    if b == NO_BALLOT {
        return Ok(());
    }
    print!(rt; " {place:02x} {:04x} {:02x}", b.number, b.owner.0)
}

fn show_both(rt: &impl Print, s: Stamp) -> io::Result<()> {
    print!(rt; " {:08x} {:02x}", s.time, s.district.0)
}

// a stamp behind its place, unless it is none
fn show_stamp(rt: &impl Print, place: u8, s: Stamp) -> io::Result<()> {
    if s == NO_STAMP {
        return Ok(());
    }
    show_byte(rt, place)?;
    show_both(rt, s)
}

// a row behind its place, unless it is none
fn show_row(rt: &impl Print, place: u8, row: Row) -> io::Result<()> {
    if row == NO_ROW {
        return Ok(());
    }
    print!(rt; " {place:02x} {:02x}", row.phase)?;
    show_both(rt, row.local)?;
    show_both(rt, row.global)
}

// kind, from, to, job, and every place of the struct that is not none
pub fn show_record(rt: &impl Print, r: Record) -> io::Result<()> {
    for b in [r.kind, r.from.0, r.to.0, r.job] {
        show_byte(rt, b)?;
    }
    for (b, place) in r.ballots.iter().zip(0xb0..) {
        show_ballot(rt, place, *b)?;
    }
    for (s, place) in r.stamps.iter().zip(0xc0..) {
        show_stamp(rt, place, *s)?;
    }
    for (row, place) in r.table.iter().zip(0..) {
        show_row(rt, place, *row)?;
    }
    Ok(())
}
