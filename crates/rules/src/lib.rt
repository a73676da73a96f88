// Whether a record is valid under a plan: the record rules, kind by kind.
// The definition, valid, stands in specs/Rules.antt of records.
#![tactic(auto)]

mod kinds;
mod parties;
mod rows;
mod spare;

pub use kinds::{is_valid, newleader_ack_obeys};
pub use parties::ballot_at;
pub use rows::rows_sound;
pub use spare::spare_rows;
