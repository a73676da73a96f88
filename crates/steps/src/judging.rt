// What a record is answered, over the box that it comes to.
// What each function means stands in specs/Step.antt of boxes.
ghost use Rattle.std.specs.Prelude.{true, ◌≡◌, ◌≤◌, eqb, ℕ, List, Ok};
ghost use Rattle.records.specs.Answers.{or_no};
ghost use Rattle.records.specs.declared.answers.Refusal.TheVariants.{OtherBox};
ghost use Rattle.records.specs.Format.{most_kind};
ghost use Rattle.records.specs.Outcome.{RecordRead};
ghost use Rattle.records.specs.Rec.{meaning};
ghost use Rattle.boxes.specs.Box.{own_of};
ghost use Rattle.boxes.specs.Lengths.{Lengths};
ghost use Rattle.boxes.specs.Sound.{sound};
ghost use Rattle.steps.specs.Judged.{judged};
ghost use Rattle.steps.specs.Judging.{Judging};

use crate::said::{self, Said};
use boxes::BoxState;
use house::Plan;
use records::{Answer, Record, Refusal};

// the answer: the first of the tests 6 to 10 that fails
#[tactic(auto, unfolding(crate::specs::Said::says, crate::specs::Judged::judged))]
fn judge(plan: Plan, x: &BoxState, r: Record) -> Answer
    requires { (1 ≤ r.kind) × (r.kind ≤ most_kind) }
    ensures { result ≡ judged plan x.now (meaning r) }
{
    match said::said_by(r) {
        Said::Multicast(job) => jobs::decide_multicast(plan, x, job),
        Said::Accept(job, y) => jobs::decide_accept(plan, x, r.from, job, y),
        Said::AcceptAck(job, ballots) => jobs::decide_accept_ack(plan, x, r.from, job, ballots),
        Said::Deliver(job, y) => jobs::decide_deliver(plan, x, job, y),
        Said::Newleader(b) => leaders::decide_newleader(x, b),
        Said::NewleaderAck(y) => leaders::decide_newleader_ack(x, r.from, y.ballot),
        Said::NewState(y) => leaders::decide_new_state(x, y.ballot),
        Said::NewstateAck(b) => leaders::decide_newstate_ack(x, b),
    }
}

// a record that the reader took: 5 if it is for another box
fn judge_record(plan: Plan, x: &BoxState, r: Record) -> Answer
    requires { (1 ≤ r.kind) × (r.kind ≤ most_kind) }
    ensures { result ≡ or_no (eqb r.to.0 (own_of x.now).0) OtherBox (judged plan x.now (meaning r)) }
{
    if r.to == x.core.own {
        return judge(plan, x, r);
    }
    Err(Refusal::OtherBox)
}

// the lengths of a box's arrays, which the proof knows of a box by value alone; nothing is done, and LLVM leaves out the call and its copy of the box
fn has_lengths(_x: BoxState)
    ensures { Lengths _x }
{}

// what bytes were read as, given to a sound box: the reader's answer, 5, and the kind's own tests, or the record that it will act on
pub fn judge_read(
    plan: Plan,
    x: &BoxState,
    read: Result<Record, Refusal>,
) -> Result<Record, Refusal>
    requires { (sound plan x.now ≡ true) × ((s : List ℕ) × RecordRead plan s read) }
    ensures { ((s : List ℕ) → RecordRead plan s read → Judging plan x.now s result) × ((r : Record) → result ≡ Ok r → read ≡ Ok r) }
{
    let r = read?;
    judge_record(plan, x, r)?;
    has_lengths(*x);
    Ok(r)
}

// bytes given to a sound box: the answers 3 to 10, or the record that it will act on
pub fn judge_bytes(plan: Plan, x: &BoxState, bytes: &[u8]) -> Result<Record, Refusal>
    requires { sound plan x.now ≡ true }
    ensures { Judging plan x.now bytes.now result }
{
    judge_read(plan, x, reader::read_bytes(plan, bytes))
}
