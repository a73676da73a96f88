// 8 NEWSTATE_ACK: the tests, the box leads, the step.
// The definition, on_newstate_ack, stands in specs/NewstateAck.antt of boxes.
ghost use Rattle.std.specs.Prelude.{◌≡◌, true, ◌≤◌, length};
ghost use Rattle.boxes.specs.NewstateAck.{leading, on_newstate_ack, newstate_ack_answer};
ghost use Rattle.laws.specs.Tray.{onto};
ghost use Rattle.house.specs.Plan.{plan_sound};
ghost use Rattle.records.specs.Answers.{done};
ghost use Rattle.records.specs.Bytes.{encode_all};
ghost use Rattle.boxes.specs.Out.{result_of, records_of};

use boxes::{BoxState, Outcome, Status};
use house::{Ballot, Plan};
use records::{Answer, Refusal};

// recovering, ballot and cballot equal
#[tactic(auto, unfolding(boxes::specs::NewstateAck::newstate_ack_answer, house::specs::Pairs::same_ballot))]
pub fn decide_newstate_ack(x: &BoxState, b: Ballot) -> Answer
    ensures { result ≡ newstate_ack_answer x.now b }
{
    if x.core.status != Status::Recovering {
        return Err(Refusal::WrongStatus);
    }
    if b != x.core.ballot || b != x.core.cballot {
        return Err(Refusal::WrongBallot);
    }
    boxes::all_passed()
}

// leader
#[tactic(auto, unfolding(boxes::specs::NewstateAck::leading))]
fn lead(x: &mut BoxState)
    ensures { x.new ≡ leading x.old }
{
    boxes::put_mode(x, Status::Leader, x.core.ballot, x.core.cballot);
}

// 8 NEWSTATE_ACK
pub fn do_newstate_ack(plan: Plan, mut x: BoxState, b: Ballot, tray: &mut [u8]) -> Outcome
    requires { (plan_sound plan ≡ true) × (length (encode_all plan (records_of (on_newstate_ack plan x b))) ≤ length tray.old) × (newstate_ack_answer x b ≡ done) }
    ensures { (result ≡ result_of plan x (on_newstate_ack plan x b)) × (tray.new ≡ onto (encode_all plan (records_of (on_newstate_ack plan x b))) tray.old) }
{
    lead(&mut x);
    let h = sending::hand_out(tray, plan, x.core);
    boxes::put_sent(&mut x, h.sent);
    boxes::done(x, h.used, h.records, None)
}
