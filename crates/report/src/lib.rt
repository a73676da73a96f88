// What the program writes: answers, and the lines of the closing report.
// Their spelling stands in specs/Texts.antt and specs/Report.antt.
#![tactic(auto)]

mod ends;
mod text;

pub use ends::{box_line, job_line};
pub use text::{answer_line, put};

// the room of a box's line and of a job's
pub const BOX_ROOM: usize = 269;

pub const JOB_ROOM: usize = 27;
