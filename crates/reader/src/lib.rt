// Bytes read as records: read_record.
// Its promise, RecordRead, stands in specs/Outcome.antt of records.
#![tactic(auto)]

mod get;
mod read;

pub use read::{read_bytes, read_record};
