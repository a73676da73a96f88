// A record of any kind, taken to its box: first judged, then, unless it is refused, done.
// The definition, react, stands in specs/Step.antt of boxes.
#![tactic(auto)]

mod acting;
mod judging;
mod said;

pub use acting::act;
pub use judging::{judge_bytes, judge_read};
