// 4 DELIVER: the tests, the job delivered, the step.
// The definition, on_deliver, stands in specs/Deliver.antt of boxes.
ghost use Rattle.std.specs.Prelude.{◌≡◌, ◌<◌};
ghost use Rattle.house.specs.Limits.{most_jobs};
ghost use Rattle.boxes.specs.Deliver.{delivered, on_deliver, deliver_answer};
ghost use Rattle.records.specs.Answers.{done};
ghost use Rattle.boxes.specs.Out.{result_of};

use boxes::{BoxState, Outcome, Status};
use house::{Plan, Row};
use records::{Answer, Handout, Refusal};

// 4 DELIVER: not recovering; ballot is cballot; stamp above the last delivered and job not on the list
#[tactic(auto, unfolding(boxes::specs::Deliver::deliver_answer, house::specs::Pairs::same_ballot, house::specs::Pairs::stamp_lt))]
pub fn decide_deliver(plan: Plan, x: &BoxState, job: u8, y: Handout) -> Answer
    ensures { result ≡ deliver_answer plan x.now job y }
{
    if !house::named(plan, job, boxes::home_in(plan, x)) {
        return Err(Refusal::NotNamed);
    }
    if x.core.status == Status::Recovering {
        return Err(Refusal::WrongStatus);
    }
    if y.ballot != x.core.cballot {
        return Err(Refusal::WrongBallot);
    }
    if y.global <= boxes::last_stamp(x) || boxes::on_list(x, job) {
        return Err(Refusal::AlreadyDone);
    }
    boxes::all_passed()
}

// phase 3, both stamps, clock raised, job added to the list
#[tactic(auto, unfolding(boxes::specs::Deliver::delivered))]
fn deliver(x: &mut BoxState, job: u8, y: Handout)
    requires { (job < most_jobs) × (x.old.core.count < most_jobs) }
    ensures { x.new ≡ delivered x.old job y }
{
    let clock = boxes::raise(x.core.clock, y.global.time);
    let new = Row {
        phase: house::COMMITTED,
        local: y.local,
        global: y.global,
    };
    boxes::put_row(x, clock, job as usize, new);
    boxes::put_listed(x, job, y.global);
}

// 4 DELIVER
#[tactic(auto, unfolding(boxes::specs::Deliver::on_deliver), using(records::proofs::laws::Bytes::encode_none))]
pub fn do_deliver(plan: Plan, mut x: BoxState, job: u8, y: Handout) -> Outcome
    requires { (job < most_jobs) × (x.core.count < most_jobs) × (deliver_answer plan x job y ≡ done) }
    ensures { result ≡ result_of plan x (on_deliver plan x job y) }
{
    deliver(&mut x, job, y);
    boxes::done(x, 0, 0, Some(job))
}
