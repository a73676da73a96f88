// What an order is answered, over the box that it names, before anything changes.
// What each function means stands in specs/Night.antt and specs/Alone.antt.
ghost use Rattle.std.specs.Prelude.{◌≡◌, true, List, ℕ, ◌≤◌};
ghost use Rattle.house.specs.Plan.{plan_sound};
ghost use Rattle.house.specs.declared.Order.TheVariants.{Stand, Retry, Cut, Carry};
ghost use Rattle.boxes.specs.Sound.{sound};
ghost use Rattle.boxes.specs.Lengths.{Lengths};
ghost use Rattle.post.specs.Posting.{most_place, start_of};
ghost use Rattle.rehearsal.specs.Alone.{here, Starts};
ghost use Rattle.rehearsal.specs.Night.{exists};
ghost use Rattle.rehearsal.specs.Steps.{Judges};

use crate::exists;
use boxes::BoxState;
use house::{Order, Plan};
use records::{Record, Refusal};

// `stand B`
fn judge_stand(plan: Plan, known: bool, x: BoxState) -> Result<Record, Refusal>
    requires { (plan_sound plan ≡ true) × (known ≡ sound plan x) }
    ensures { (used p : ℕ) (s : List ℕ) → exists plan (here used) s (Stand p) ≡ true → Judges plan used x s (Stand p) result }
{
    if !known {
        return Err(Refusal::NotSound);
    }
    leaders::decide_stand(&x)?;
    Ok(records::no_record())
}

// `retry B J`
fn judge_retry(plan: Plan, known: bool, x: BoxState, job: u8) -> Result<Record, Refusal>
    requires { (plan_sound plan ≡ true) × (known ≡ sound plan x) }
    ensures { (used p : ℕ) (s : List ℕ) → exists plan (here used) s (Retry p job) ≡ true → Judges plan used x s (Retry p job) result }
{
    if !known {
        return Err(Refusal::NotSound);
    }
    jobs::decide_retry(plan, &x, job)?;
    Ok(records::no_record())
}

// `cut B`
fn judge_cut(known: bool) -> Result<Record, Refusal>
    ensures { (P : Plan) (used p : ℕ) (x : BoxState) (s : List ℕ) → plan_sound P ≡ true → known ≡ sound P x → Lengths x → exists P (here used) s (Cut p) ≡ true → Judges P used x s (Cut p) result }
{
    if !known {
        return Err(Refusal::NotSound);
    }
    Ok(records::no_record())
}

// `carry K`, of which the record begins at `start`, to the box that it is addressed to
fn judge_carry(
    plan: Plan,
    known: bool,
    x: BoxState,
    start: usize,
    post: &[u8],
) -> Result<Record, Refusal>
    requires { (plan_sound plan ≡ true) × (known ≡ sound plan x) × (start ≤ most_place) }
    ensures { (used k : ℕ) → start ≡ start_of plan post.now used k → exists plan (here used) post.now (Carry k) ≡ true → Judges plan used x post.now (Carry k) result }
{
    if !known {
        return Err(Refusal::NotSound);
    }
    let kind = post::byte_at(post, start + 1);
    let len = records::length_of(plan, kind);
    let from = post::within(start, post.len());
    let end = post::within(start + len, post.len());
    steps::judge_bytes(plan, &x, &post[from..end])
}

// a plan is sound if one of its boxes is known to be
fn known_plan(plan: Plan, known: bool) -> bool
    requires { known ≡ true → plan_sound plan ≡ true }
    ensures { result ≡ plan_sound plan }
{
    known || house::plan_sound(plan)
}

// 1 for the plan, 11, and the box's own answers; else the record that the box takes, or the one that stands for none
pub fn judge(
    plan: Plan,
    known: bool,
    used: usize,
    x: BoxState,
    order: Order,
    start: usize,
    post: &[u8],
) -> Result<Record, Refusal>
    requires { (known ≡ sound plan x) × (start ≤ most_place) × Starts plan post.now used order start }
    ensures { Judges plan used x post.now order result }
{
    if !known_plan(plan, known) {
        return Err(Refusal::NotSound);
    }
    if !exists::is_there(plan, used, order, start, post) {
        return Err(Refusal::NoSuch);
    }
    match order {
        Order::Post(_) => Ok(records::no_record()),
        Order::Stand(_) => judge_stand(plan, known, x),
        Order::Retry(_, j) => judge_retry(plan, known, x, j as u8),
        Order::Cut(_) => judge_cut(known),
        Order::Carry(_) => judge_carry(plan, known, x, start, post),
    }
}
