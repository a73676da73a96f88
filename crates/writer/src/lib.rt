// Records written as bytes: write_record.
// Its promise, RecordWritten, stands in specs/Outcome.antt of records.
#![tactic(auto)]

mod put;
mod write;

pub use write::{put_record, write_record};
