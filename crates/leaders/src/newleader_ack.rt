// 6 NEWLEADER_ACK: the tests, the vote counted, the step.
// The definition, on_newleader_ack, stands in specs/NewleaderAck.antt of boxes.
ghost use Rattle.std.specs.Prelude.{◌≡◌, leb, true, ◌≤◌, length};
ghost use Rattle.house.specs.Plan.{quorum_of, plan_sound};
ghost use Rattle.boxes.specs.NewleaderAck.{votes_count, voted_by, when_voted, on_newleader_ack, newleader_ack_answer};
ghost use Rattle.laws.specs.Tray.{onto};
ghost use Rattle.records.specs.Answers.{done};
ghost use Rattle.records.specs.Bytes.{encode_all};
ghost use Rattle.boxes.specs.Out.{result_of, records_of};

use crate::merge;
use boxes::{BoxState, Outcome, Status, Vote};
use house::{Ballot, BoxNo, Plan};
use records::{Answer, Ballotpaper, Refusal};

// this box has voted already
#[tactic(auto, unfolding(boxes::specs::NewleaderAck::voted_by))]
fn voted_by(x: &BoxState, from: BoxNo) -> bool
    ensures { result ≡ voted_by x.now from }
{
    x.volatile.vote.held && x.volatile.vote.voter == from
}

// 6 NEWLEADER_ACK: recovering, ballot equal, not merged already and not the same voter
#[tactic(auto, unfolding(boxes::specs::NewleaderAck::newleader_ack_answer, house::specs::Pairs::same_ballot))]
pub fn decide_newleader_ack(x: &BoxState, from: BoxNo, b: Ballot) -> Answer
    ensures { result ≡ newleader_ack_answer x.now from b }
{
    if x.core.status != Status::Recovering {
        return Err(Refusal::WrongStatus);
    }
    if b != x.core.ballot {
        return Err(Refusal::WrongBallot);
    }
    if x.core.cballot == x.core.ballot || voted_by(x, from) {
        return Err(Refusal::AlreadyDone);
    }
    boxes::all_passed()
}

// the votes at hand with one more
#[tactic(auto, unfolding(boxes::specs::NewleaderAck::votes_count, laws::specs::Choice::pick))]
fn votes_count(old: &Vote) -> u8
    ensures { result ≡ votes_count old.now }
{
    if old.held { 2 } else { 1 }
}

// one vote more makes a quorum
fn is_quorum(plan: Plan, x: &BoxState) -> bool
    ensures { result ≡ leb (quorum_of plan) (votes_count x.now.volatile.vote) }
{
    house::quorum_of(plan) <= votes_count(&x.volatile.vote)
}

// 6 NEWLEADER_ACK, with a vote to keep or to merge
#[tactic(auto, unfolding(boxes::specs::NewleaderAck::when_voted, laws::specs::Choice::pick), using(crate::proofs::laws::Votes::quorum_held, crate::proofs::laws::Voted::states_sent, sending::proofs::laws::Sends::sends_as, records::proofs::laws::Bytes::encode_none, laws::proofs::laws::Tray::onto_nil))]
fn when_voted(plan: Plan, mut x: BoxState, v: Vote, tray: &mut [u8]) -> Outcome
    requires { (plan_sound plan ≡ true) × (length (encode_all plan (records_of (when_voted plan x v))) ≤ length tray.old) }
    ensures { (result ≡ result_of plan x (when_voted plan x v)) × (tray.new ≡ onto (encode_all plan (records_of (when_voted plan x v))) tray.old) }
{
    if is_quorum(plan, &x) {
        merge::merge(plan, &mut x, v);
        let r = sending::new_state_record(plan, &x, x.core.own);
        let meant = house::other_boxes(plan, x.core.own);
        return sending::done_sending(plan, x, r, meant, tray);
    }
    boxes::put_vote(&mut x, v);
    boxes::done(x, 0, 0, None)
}

// 6 NEWLEADER_ACK
#[tactic(auto, unfolding(boxes::specs::NewleaderAck::on_newleader_ack))]
pub fn do_newleader_ack(
    plan: Plan,
    x: BoxState,
    from: BoxNo,
    y: Ballotpaper,
    tray: &mut [u8],
) -> Outcome
    requires { (plan_sound plan ≡ true) × (length (encode_all plan (records_of (on_newleader_ack plan x from y))) ≤ length tray.old) × (newleader_ack_answer x from y.ballot ≡ done) }
    ensures { (result ≡ result_of plan x (on_newleader_ack plan x from y)) × (tray.new ≡ onto (encode_all plan (records_of (on_newleader_ack plan x from y))) tray.old) }
{
    let v = merge::vote_of(from, y);
    when_voted(plan, x, v, tray)
}
