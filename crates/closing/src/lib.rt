// The closing report of a night: its boxes, its jobs, and whether they are finished.
// The promise, Closed, stands in specs/Promise.antt.
#![tactic(auto)]

mod closing;
mod endings;

pub use closing::close;

// the room of the report
pub const REPORT_ROOM: usize = house::MOST_BOXES * report::BOX_ROOM
    + house::JOBS * report::JOB_ROOM;
