// Marks: one bit for each box, and whether those of a district are a quorum.
// What each function means stands in specs/Marks.antt.
ghost use Rattle.std.specs.Prelude.{◌≡◌, true, Bool};
ghost use Rattle.laws.specs.Choice.{pick};
ghost use Rattle.house.specs.Plan.{boxes_of, plan_sound};
ghost use Rattle.house.specs.declared.BoxNo.{BoxNo};
ghost use Rattle.house.specs.Marks.{no_marks, has_mark, marked, marks_of, named_boxes, home_boxes, other_boxes, marks_in, only_boxes, quorum_in, quorum_each};

use crate::{BoxNo, District, Plan, plans};

pub const MOST_MARKS: u8 = 32;

pub fn no_marks() -> u32
    ensures { result ≡ no_marks }
{
    0
}

#[tactic(auto, unfolding(crate::specs::Marks::has_mark, laws::specs::Digits::digit))]
pub fn has_mark(marks: u32, p: BoxNo) -> bool
    ensures { result ≡ has_mark marks p }
{
    p.0 < MOST_MARKS && (marks >> p.0) % 2 == 1
}

#[tactic(auto, unfolding(crate::specs::Marks::marked, laws::specs::Digits::with_digit, laws::specs::Choice::pick))]
pub fn mark(marks: u32, p: BoxNo) -> u32
    ensures { result ≡ marked marks p }
{
    if p.0 < MOST_MARKS {
        marks | (1u32 << p.0)
    } else {
        marks
    }
}

// one box more, if it is meant
#[tactic(auto, unfolding(laws::specs::Choice::pick))]
pub fn mark_if(meant: bool, marks: u32, p: BoxNo) -> u32
    ensures { result ≡ pick meant (marked marks p) marks }
{
    if meant { mark(marks, p) } else { marks }
}

// the boxes of the plan that pass a test
pub fn boxes_where<F: Fn(BoxNo) -> bool>(plan: Plan, meant: F) -> u32
    requires sound { plan_sound plan ≡ true }
    requires can { F.IsAlwaysCallable meant }
    ensures { (t : BoxNo → Bool) → ((p : BoxNo) (b : Bool) → F.post meant p b → b ≡ t p) → result ≡ marks_of t (boxes_of plan) }
{
    (0..plans::boxes_of(plan) as u8)
        .map(BoxNo)
        .filter(|p| meant(*p))
        .fold(no_marks(), mark)
}

// all boxes of the districts that a job names
pub fn named_boxes(plan: Plan, job: u8) -> u32
    requires { plan_sound plan ≡ true }
    ensures { result ≡ named_boxes plan job }
{
    boxes_where(plan, |p| plans::named(plan, job, plans::home_of(plan, p)))
}

// the boxes of a box's own district
pub fn home_boxes(plan: Plan, own: BoxNo) -> u32
    requires { plan_sound plan ≡ true }
    ensures { result ≡ home_boxes plan own }
{
    boxes_where(plan, |p| plans::same_home(plan, p, own))
}

// the other boxes of its district
pub fn other_boxes(plan: Plan, own: BoxNo) -> u32
    requires { plan_sound plan ≡ true }
    ensures { result ≡ other_boxes plan own }
{
    boxes_where(plan, |p| plans::same_home(plan, p, own) && p != own)
}

// the marks of one district alone
#[tactic(auto, unfolding(crate::specs::Marks::marks_in, laws::specs::Digits::part))]
pub fn marks_in(plan: Plan, marks: u32, d: District) -> u32
    ensures { result ≡ marks_in plan marks d }
{
    let low = plans::times_size(plan, d.0);
    if low >= MOST_MARKS as u16 {
        return 0;
    }
    (marks >> low) % (1u32 << plans::size_of(plan))
}

#[tactic(auto, unfolding(crate::specs::Marks::quorum_in))]
fn quorum_in(plan: Plan, marks: u32, d: District) -> bool
    ensures { result ≡ quorum_in plan marks d }
{
    marks_in(plan, marks, d).count_ones() >= plans::quorum_of(plan) as u32
}

// no number beyond the plan's boxes is marked
#[tactic(auto, unfolding(crate::specs::Marks::only_boxes))]
pub fn only_boxes(plan: Plan, marks: u32) -> bool
    ensures { result ≡ only_boxes plan marks }
{
    let n = plans::boxes_of(plan);
    n >= MOST_MARKS as u16 || marks < (1u32 << n)
}

// a quorum in every district that the job names
pub fn quorum_each(plan: Plan, job: u8, marks: u32) -> bool
    ensures { result ≡ quorum_each plan job marks }
{
    (0..plan.districts).all(|d| !plans::named(plan, job, District(d))
        || quorum_in(plan, marks, District(d)))
}
