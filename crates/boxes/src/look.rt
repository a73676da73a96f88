// One thing looked up in a box: a row, a flag, marks, a kept ACCEPT, a place of the list.
// What each function means stands in specs/Box.antt.
ghost use Rattle.std.specs.Prelude.{◌≡◌, ◌<◌, get_or};
ghost use Rattle.boxes.specs.Box.{home_in, row_at, no_listed, listed_at, last_stamp, on_list, kept_at, kept_ballot, kept_stamp, marks_at, is_leader, is_recovering, raised};

use crate::{BoxState, Listed, Status, fresh};
use house::{Ballot, District, Plan, Row, Stamp};

pub fn is_leader(s: Status) -> bool
    ensures { result ≡ is_leader s }
{
    s == Status::Leader
}

pub fn is_recovering(s: Status) -> bool
    ensures { result ≡ is_recovering s }
{
    s == Status::Recovering
}

// the clock raised to a time
#[tactic(auto, unfolding(crate::specs::Box::raised, laws::specs::Choice::pick))]
pub fn raise(clock: u32, time: u32) -> u32
    ensures { result ≡ raised clock time }
{
    clock.max(time)
}

// the own district
pub fn home_in(plan: Plan, x: &BoxState) -> District
    ensures { result ≡ home_in plan x.now }
{
    house::home_of(plan, x.core.own)
}

#[tactic(auto, using(std::proofs::lemmas::Option::gets), unfolding(crate::specs::Box::row_at))]
pub fn row_at(x: &BoxState, job: u8) -> Row
    ensures { result ≡ row_at x.now job }
{
    x.core
        .table
        .get(job as usize)
        .copied()
        .unwrap_or(house::no_row())
}

#[tactic(auto, using(std::proofs::lemmas::Option::gets), unfolding(crate::specs::Box::marks_at))]
pub fn marks_at(x: &BoxState, job: u8) -> u32
    ensures { result ≡ marks_at x.now job }
{
    x.volatile
        .marks
        .get(job as usize)
        .copied()
        .unwrap_or(house::no_marks())
}

// where the ACCEPT for a job and a district is kept
// Stays: a place of one array and no row of rows, since `kept_at` and `fresh` of specs/Box.antt, which may not change, count its places.
#[tactic(auto, unfolding(crate::specs::Box::kept_at))]
pub fn kept_at(job: usize, d: District) -> usize
    requires { job < 256 }
    ensures { result ≡ kept_at job d }
{
    job * house::DISTRICTS + d.0 as usize
}

// the ballot of the ACCEPT kept for a job and a district
#[tactic(auto, using(std::proofs::lemmas::Option::gets), unfolding(crate::specs::Box::kept_ballot))]
pub fn kept_ballot(x: &BoxState, job: u8, d: District) -> Ballot
    ensures { result ≡ kept_ballot x.now job d }
{
    x.volatile
        .kept_ballots
        .get(kept_at(job as usize, d))
        .copied()
        .unwrap_or(house::no_ballot())
}

// and its stamp
#[tactic(auto, using(std::proofs::lemmas::Option::gets), unfolding(crate::specs::Box::kept_stamp))]
pub fn kept_stamp(x: &BoxState, job: u8, d: District) -> Stamp
    ensures { result ≡ kept_stamp x.now job d }
{
    x.volatile
        .kept_stamps
        .get(kept_at(job as usize, d))
        .copied()
        .unwrap_or(house::no_stamp())
}

// place i of a delivered list, which has job 0 only behind its end
#[tactic(auto, using(std::proofs::lemmas::Option::gets))]
fn place(list: &[Listed; house::JOBS], i: u8) -> Listed
    ensures { result ≡ get_or list.now i no_listed }
{
    list.get(i as usize).copied().unwrap_or(fresh::no_listed())
}

#[tactic(auto, unfolding(crate::specs::Box::listed_at))]
pub fn listed_at(x: &BoxState, i: u8) -> Listed
    ensures { result ≡ listed_at x.now i }
{
    place(&x.core.list, i)
}

// the last delivered stamp, none if the list is empty
#[tactic(auto, unfolding(crate::specs::Box::last_stamp, crate::specs::Box::listed_at, laws::specs::Choice::pick))]
pub fn last_stamp(x: &BoxState) -> Stamp
    ensures { result ≡ last_stamp x.now }
{
    if x.core.count == 0 {
        return house::no_stamp();
    }
    place(&x.core.list, x.core.count - 1).stamp
}

// the job is on the delivered list
pub fn on_list(x: &BoxState, job: u8) -> bool
    ensures { result ≡ on_list x.now job }
{
    (0..x.core.count).any(|i| place(&x.core.list, i).job == job)
}
