// stand: the tests, the step.
// The definition, stand, stands in specs/Stand.antt of boxes.
ghost use Rattle.std.specs.Prelude.{true, ◌≡◌, ◌≤◌, ◌<◌, length};
ghost use Rattle.house.specs.Limits.{most_number};
ghost use Rattle.house.specs.Plan.{plan_sound};
ghost use Rattle.records.specs.Bytes.{encode_all};
ghost use Rattle.boxes.specs.Stand.{standing, stand_answer};
ghost use Rattle.sending.specs.Sends.{Written};

use boxes::BoxState;
use house::Plan;
use records::{Answer, Refusal};
use sending::Sent;

// stand: room for the next ballot number
#[tactic(auto, unfolding(boxes::specs::Stand::stand_answer))]
pub fn decide_stand(x: &BoxState) -> Answer
    ensures { result ≡ stand_answer x.now }
{
    if house::MOST_NUMBER <= x.core.ballot.number {
        return Err(Refusal::AtLimit);
    }
    boxes::all_passed()
}

// NEWLEADER with the next ballot to the district; the box stays as it is
#[tactic(auto, using(sending::proofs::laws::Kinds::newleaders_sent, sending::proofs::laws::Sends::sends_as))]
pub fn do_stand(plan: Plan, x: &BoxState, tray: &mut [u8]) -> Sent
    requires { (plan_sound plan ≡ true) × (x.now.core.ballot.number < most_number) × (length (encode_all plan (standing plan x.now)) ≤ length tray.old) }
    ensures { Written plan (standing plan x.now) tray.old result tray.new }
{
    let r = sending::stand_record(x, x.core.own);
    let meant = house::home_boxes(plan, x.core.own);
    sending::send(tray, plan, r, meant)
}
