// What the report says of each job: its final stamp, and whether it is finished.
// The definitions stand in specs/Ends.antt.
ghost use Rattle.std.specs.Prelude.{◌≡◌, ◌+◌, ◌*◌, ◌≤◌, ◌<◌};
ghost use Rattle.house.specs.Limits.{most_boxes, most_districts, most_jobs};
ghost use Rattle.house.specs.Plan.{size_of};
ghost use Rattle.closing.specs.Endings.{jobs_of, shown_of, first_of, finished};
ghost use Rattle.closing.specs.Holders.{Holders, marked_in, held_in};
ghost use Rattle.closing.specs.Ends.{end_with, no_ends, OneMore};

use boxes::BoxState;
use house::{BoxNo, District, Plan, Row, Stamp};
use rehearsal::Night;

// what the boxes say of a job: the global stamp at the first box that has it committed, and which boxes have it on their lists, as marks
#[derive(Clone, Copy)]
pub struct JobEnd {
    pub first: Option<Stamp>,
    pub holders: u32,
}

// the jobs of a box's list, place by place
pub fn jobs_of(x: BoxState) -> [u8; house::JOBS]
    ensures { result ≡ jobs_of x }
{
    x.core.list.map(|listed| listed.job)
}

// how many jobs of its list are shown
#[tactic(auto, using(laws::proofs::laws::Choice::min_pick), unfolding(crate::specs::Endings::shown_of))]
pub fn shown_of(x: BoxState) -> usize
    ensures { (result ≡ shown_of x) × (result ≤ most_jobs) }
{
    house::MOST_JOBS.min(x.core.count) as usize
}

// what was found before, or the row's stamp if the row is committed
#[tactic(auto, unfolding(crate::specs::Endings::first_of, laws::specs::Choice::pick))]
fn first_of(first: Option<Stamp>, row: Row) -> Option<Stamp>
    ensures { result ≡ first_of first row }
{
    first.or((row.phase == house::COMMITTED).then_some(row.global))
}

// what was said of a job, and what box p says of it
fn end_with(end: JobEnd, p: BoxNo, x: BoxState, job: u8) -> JobEnd
    ensures { result ≡ end_with end p x job }
{
    JobEnd {
        first: first_of(end.first, boxes::row_at(&x, job)),
        holders: house::mark_if(boxes::on_list(&x, job), end.holders, p),
    }
}

// before any box is asked: nothing found and no holders, for each job
pub fn no_ends() -> [JobEnd; house::JOBS]
    ensures { result ≡ no_ends }
{
    let none = JobEnd {
        first: None,
        holders: house::no_marks(),
    };
    [none; house::JOBS]
}

// what the boxes before p say of each job, and now box p, which is x
pub fn with_box(ends: &mut [JobEnd; house::JOBS], p: BoxNo, x: BoxState)
    ensures { OneMore p x ends.old ends.new }
{
    for (j, end) in ends.iter_mut().enumerate() {
        *end = end_with(*end, p, x, j as u8);
    }
}

// one of `size` boxes from `low` on is marked as a holder
fn listed_in(holders: u32, low: BoxNo, size: u8) -> bool
    requires { low.0 + size ≤ most_boxes }
    ensures { result ≡ marked_in holders low.0 size }
{
    (0..size).any(|i| house::has_mark(holders, BoxNo(low.0 + i)))
}

// a district is done with the job if the job doesn't name it, or is on the list of one of its boxes
#[tactic(auto, unfolding(crate::specs::Holders::held_in))]
fn done_in(plan: Plan, job: u8, holders: u32, d: District) -> bool
    requires { d.0 < most_districts }
    ensures { result ≡ held_in plan job holders d.0 }
{
    let size = house::size_of(plan);
    !house::named(plan, job, d) || listed_in(holders, BoxNo(d.0 * size), size)
}

// every district is done with the job
pub fn finished_below(plan: Plan, job: u8, holders: u32, n: u8) -> bool
    requires { n ≤ most_districts }
    ensures { (night : Night) → Holders night job (n * size_of plan) holders → result ≡ finished plan night job n }
{
    (0..n).all(|d| done_in(plan, job, holders, District(d)))
}
