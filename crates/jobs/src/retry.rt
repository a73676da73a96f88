// retry: the tests, the step.
// The definition, retry, stands in specs/Retry.antt of boxes.
ghost use Rattle.std.specs.Prelude.{true, ◌≡◌, ◌≤◌, length};
ghost use Rattle.house.specs.Plan.{plan_sound};
ghost use Rattle.records.specs.Bytes.{encode_all};
ghost use Rattle.boxes.specs.Retry.{retries, retry_answer};
ghost use Rattle.sending.specs.Sends.{Written};

use boxes::BoxState;
use house::Plan;
use records::{Answer, Refusal};
use sending::Sent;

// retry: phase 0 or 3 is done already
#[tactic(auto, unfolding(boxes::specs::Retry::retry_answer))]
pub fn decide_retry(plan: Plan, x: &BoxState, job: u8) -> Answer
    ensures { result ≡ retry_answer plan x.now job }
{
    if !house::named(plan, job, boxes::home_in(plan, x)) {
        return Err(Refusal::NotNamed);
    }
    if !sending::is_open(x, job) {
        return Err(Refusal::AlreadyDone);
    }
    boxes::all_passed()
}

// the job's MULTICAST again; the box stays as it is
#[tactic(auto, unfolding(boxes::specs::Retry::retries), using(sending::proofs::laws::Kinds::multicasts_sent, sending::proofs::laws::Sends::sends_as))]
pub fn do_retry(plan: Plan, x: &BoxState, job: u8, tray: &mut [u8]) -> Sent
    requires { (plan_sound plan ≡ true) × (length (encode_all plan (retries plan x.now job)) ≤ length tray.old) }
    ensures { Written plan (retries plan x.now job) tray.old result tray.new }
{
    let r = sending::multicast_record(x.core.own, x.core.own, job);
    let meant = house::named_boxes(plan, job);
    sending::send(tray, plan, r, meant)
}
