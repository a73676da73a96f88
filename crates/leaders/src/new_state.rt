// 7 NEW_STATE: the tests, the leader followed, the step.
// The definition, on_new_state, stands in specs/NewState.antt of boxes.
ghost use Rattle.std.specs.Prelude.{◌≡◌, true, ◌≤◌, length};
ghost use Rattle.boxes.specs.NewState.{followed, on_new_state, new_state_answer};
ghost use Rattle.laws.specs.Tray.{onto};
ghost use Rattle.house.specs.Plan.{plan_sound};
ghost use Rattle.records.specs.Answers.{done};
ghost use Rattle.records.specs.Bytes.{encode_all};
ghost use Rattle.boxes.specs.Out.{result_of, records_of};

use boxes::{BoxState, Outcome, Status};
use house::{Ballot, BoxNo, Plan};
use records::{Answer, NewState, Refusal};

// recovering, ballot equal
#[tactic(auto, unfolding(boxes::specs::NewState::new_state_answer, house::specs::Pairs::same_ballot))]
pub fn decide_new_state(x: &BoxState, b: Ballot) -> Answer
    ensures { result ≡ new_state_answer x.now b }
{
    if x.core.status != Status::Recovering {
        return Err(Refusal::WrongStatus);
    }
    if b != x.core.ballot {
        return Err(Refusal::WrongBallot);
    }
    boxes::all_passed()
}

// follower, cballot set, clock and table taken
#[tactic(auto, unfolding(boxes::specs::NewState::followed))]
fn follow(x: &mut BoxState, y: NewState)
    ensures { x.new ≡ followed x.old y }
{
    boxes::put_table(x, y.clock.time, y.table);
    boxes::put_mode(x, Status::Follower, x.core.ballot, y.ballot);
}

// 7 NEW_STATE
#[tactic(auto, unfolding(boxes::specs::NewState::on_new_state), using(sending::proofs::laws::Sends::encode_one))]
pub fn do_new_state(
    plan: Plan,
    mut x: BoxState,
    from: BoxNo,
    y: NewState,
    tray: &mut [u8],
) -> Outcome
    requires { (plan_sound plan ≡ true) × (length (encode_all plan (records_of (on_new_state x from y))) ≤ length tray.old) × (new_state_answer x y.ballot ≡ done) }
    ensures { (result ≡ result_of plan x (on_new_state x from y)) × (tray.new ≡ onto (encode_all plan (records_of (on_new_state x from y))) tray.old) }
{
    let r = sending::newstate_ack_record(&x, from, y.ballot);
    follow(&mut x, y);
    let used = writer::put_record(tray, plan, r);
    boxes::done(x, used, 1, None)
}
