// One thing changed in a box that is lent, all others as they were.
// Each promises the box with that field anew.
ghost use Rattle.std.specs.Prelude.{◌≡◌, ◌<◌};
ghost use Rattle.house.specs.Limits.{most_districts, most_jobs};
ghost use Rattle.boxes.specs.Box.{put_mode, put_table, put_row, put_sent, put_listed, put_kept, put_marks, put_vote};

use crate::{BoxState, Listed, Status, Vote, look};
use house::{Ballot, District, Row, Stamp};

// status and the two ballots
pub fn put_mode(x: &mut BoxState, s: Status, b: Ballot, cb: Ballot)
    ensures { x.new ≡ put_mode x.old s b cb }
{
    x.core.status = s;
    x.core.ballot = b;
    x.core.cballot = cb;
}

// the clock and the table
pub fn put_table(x: &mut BoxState, clock: u32, table: [Row; house::JOBS])
    ensures { x.new ≡ put_table x.old clock table }
{
    x.core.clock = clock;
    x.core.table = table;
}

// the clock and the row of a job
pub fn put_row(x: &mut BoxState, clock: u32, job: usize, row: Row)
    requires { job < most_jobs }
    ensures { x.new ≡ put_row x.old clock job row }
{
    x.core.clock = clock;
    x.core.table[job] = row;
}

// the sent flags
pub fn put_sent(x: &mut BoxState, sent: [bool; house::JOBS])
    ensures { x.new ≡ put_sent x.old sent }
{
    x.core.sent = sent;
}

// a job more on the delivered list
pub fn put_listed(x: &mut BoxState, job: u8, s: Stamp)
    requires { x.old.core.count < most_jobs }
    ensures { x.new ≡ put_listed x.old job s }
{
    x.core.list[x.core.count as usize] = Listed { job, stamp: s };
    x.core.count += 1;
}

// the ACCEPT kept for a job and a district, and the job's marks
#[tactic(auto, unfolding(crate::specs::Box::kept_at))]
pub fn put_kept(x: &mut BoxState, job: usize, d: District, b: Ballot, s: Stamp, marks: u32)
    requires { (job < most_jobs) × (d.0 < most_districts) }
    ensures { x.new ≡ put_kept x.old job d b s marks }
{
    let at = look::kept_at(job, d);
    x.volatile.kept_ballots[at] = b;
    x.volatile.kept_stamps[at] = s;
    x.volatile.marks[job] = marks;
}

// the marks of a job
pub fn put_marks(x: &mut BoxState, job: usize, marks: u32)
    requires { job < most_jobs }
    ensures { x.new ≡ put_marks x.old job marks }
{
    x.volatile.marks[job] = marks;
}

// the vote kept
pub fn put_vote(x: &mut BoxState, vote: Vote)
    ensures { x.new ≡ put_vote x.old vote }
{
    x.volatile.vote = vote;
}
