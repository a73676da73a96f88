// 5 NEWLEADER: the tests, the ballot joined, the step.
// The definition, on_newleader, stands in specs/Newleader.antt of boxes.
ghost use Rattle.std.specs.Prelude.{◌≡◌, true, ◌≤◌, length};
ghost use Rattle.boxes.specs.Newleader.{joined, on_newleader, newleader_answer};
ghost use Rattle.laws.specs.Tray.{onto};
ghost use Rattle.house.specs.Plan.{plan_sound};
ghost use Rattle.records.specs.Answers.{done};
ghost use Rattle.records.specs.Bytes.{encode_all};
ghost use Rattle.boxes.specs.Out.{result_of, records_of};

use boxes::{BoxState, Outcome, Status};
use house::{Ballot, BoxNo, Plan};
use records::{Answer, Refusal};

// 5 NEWLEADER: any status, ballot above own ballot
#[tactic(auto, unfolding(boxes::specs::Newleader::newleader_answer, house::specs::Pairs::ballot_lt))]
pub fn decide_newleader(x: &BoxState, b: Ballot) -> Answer
    ensures { result ≡ newleader_answer x.now b }
{
    if b <= x.core.ballot {
        return Err(Refusal::WrongBallot);
    }
    boxes::all_passed()
}

// recovering, ballot set, vote dropped
#[tactic(auto, unfolding(boxes::specs::Newleader::joined))]
fn join(x: &mut BoxState, b: Ballot)
    ensures { x.new ≡ joined x.old b }
{
    boxes::put_vote(x, boxes::no_vote());
    boxes::put_mode(x, Status::Recovering, b, x.core.cballot);
}

// 5 NEWLEADER
#[tactic(auto, unfolding(boxes::specs::Newleader::on_newleader), using(sending::proofs::laws::Sends::encode_one))]
pub fn do_newleader(plan: Plan, mut x: BoxState, from: BoxNo, b: Ballot, tray: &mut [u8]) -> Outcome
    requires { (plan_sound plan ≡ true) × (length (encode_all plan (records_of (on_newleader plan x from b))) ≤ length tray.old) × (newleader_answer x b ≡ done) }
    ensures { (result ≡ result_of plan x (on_newleader plan x from b)) × (tray.new ≡ onto (encode_all plan (records_of (on_newleader plan x from b))) tray.old) }
{
    let r = sending::vote_record(plan, &x, from, b);
    join(&mut x, b);
    let used = writer::put_record(tray, plan, r);
    boxes::done(x, used, 1, None)
}
