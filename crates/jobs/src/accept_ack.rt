// 3 ACCEPT_ACK: the tests, the box marked, the job committed, the step.
// The definition, on_accept_ack, stands in specs/AcceptAck.antt of boxes.
ghost use Rattle.std.specs.Prelude.{◌≡◌, ◌<◌, ◌≤◌, true, length};
ghost use Rattle.house.specs.Limits.{most_jobs};
ghost use Rattle.house.specs.Marks.{marked};
ghost use Rattle.boxes.specs.Box.{marks_at, put_marks};
ghost use Rattle.boxes.specs.AcceptAck.{agree_below, agree, enough, committed, when_marked, on_accept_ack, accept_ack_answer};
ghost use Rattle.laws.specs.Tray.{onto};
ghost use Rattle.house.specs.Plan.{plan_sound};
ghost use Rattle.records.specs.Answers.{done};
ghost use Rattle.records.specs.Bytes.{encode_all};
ghost use Rattle.boxes.specs.Out.{result_of, records_of};

use crate::accept;
use boxes::{BoxState, Outcome, Status};
use house::{Ballot, BoxNo, District, Plan, Row};
use records::{Answer, Refusal};

// 3 ACCEPT_ACK: the ballot of each of the first n districts that the job names equals the kept one
fn agree_below(
    plan: Plan,
    x: &BoxState,
    job: u8,
    ballots: [Ballot; house::DISTRICTS],
    n: u8,
) -> bool
    ensures { result ≡ agree_below plan x.now job ballots n }
{
    (0..n).all(|d| {
        let d = District(d);
        !house::named(plan, job, d) || rules::ballot_at(ballots, d) == boxes::kept_ballot(x, job, d)
    })
}

// and the own one equals cballot
#[tactic(auto, unfolding(boxes::specs::AcceptAck::agree, house::specs::Pairs::same_ballot))]
fn all_agree(plan: Plan, x: &BoxState, job: u8, ballots: [Ballot; house::DISTRICTS]) -> bool
    ensures { result ≡ agree plan x.now job ballots }
{
    let own = rules::ballot_at(ballots, boxes::home_in(plan, x));
    agree_below(plan, x, job, ballots, plan.districts) && own == x.core.cballot
}

#[tactic(auto, unfolding(boxes::specs::AcceptAck::accept_ack_answer))]
pub fn decide_accept_ack(
    plan: Plan,
    x: &BoxState,
    from: BoxNo,
    job: u8,
    ballots: [Ballot; house::DISTRICTS],
) -> Answer
    ensures { result ≡ accept_ack_answer plan x.now from job ballots }
{
    if !house::named(plan, job, boxes::home_in(plan, x)) {
        return Err(Refusal::NotNamed);
    }
    if x.core.status != Status::Leader {
        return Err(Refusal::WrongStatus);
    }
    if !all_agree(plan, x, job, ballots) {
        return Err(Refusal::WrongBallot);
    }
    let is_committed = boxes::row_at(x, job).phase == house::COMMITTED;
    if is_committed || house::has_mark(boxes::marks_at(x, job), from) {
        return Err(Refusal::AlreadyDone);
    }
    boxes::all_passed()
}

fn mark_by(x: &mut BoxState, job: u8, from: BoxNo)
    requires { job < most_jobs }
    ensures { x.new ≡ put_marks x.old job (marked (marks_at x.old job) from) }
{
    let marks = house::mark(boxes::marks_at(x, job), from);
    boxes::put_marks(x, job as usize, marks);
}

// the own mark and a quorum in every named district
#[tactic(auto, unfolding(boxes::specs::AcceptAck::enough))]
fn is_enough(plan: Plan, x: &BoxState, job: u8) -> bool
    ensures { result ≡ enough plan x.now job }
{
    let marks = boxes::marks_at(x, job);
    house::has_mark(marks, x.core.own) && house::quorum_each(plan, job, marks)
}

// phase 3, global stamp the largest kept, local the own kept (H)
#[tactic(auto, unfolding(boxes::specs::AcceptAck::committed))]
fn commit(plan: Plan, x: &mut BoxState, job: u8)
    requires { job < most_jobs }
    ensures { x.new ≡ committed plan x.old job }
{
    let new = Row {
        phase: house::COMMITTED,
        local: boxes::kept_stamp(x, job, boxes::home_in(plan, x)),
        global: accept::latest_kept(plan, x, job, plan.districts),
    };
    boxes::put_row(x, x.core.clock, job as usize, new);
}

// 3 ACCEPT_ACK, once it is marked
#[tactic(auto, unfolding(boxes::specs::AcceptAck::when_marked, laws::specs::Choice::pick), using(records::proofs::laws::Bytes::encode_none, laws::proofs::laws::Tray::onto_nil))]
fn when_marked(plan: Plan, mut x: BoxState, job: u8, tray: &mut [u8]) -> Outcome
    requires { (plan_sound plan ≡ true) × (job < most_jobs) × (length (encode_all plan (records_of (when_marked plan x job))) ≤ length tray.old) }
    ensures { (result ≡ result_of plan x (when_marked plan x job)) × (tray.new ≡ onto (encode_all plan (records_of (when_marked plan x job))) tray.old) }
{
    if is_enough(plan, &x, job) {
        commit(plan, &mut x, job);
        let h = sending::hand_out(tray, plan, x.core);
        boxes::put_sent(&mut x, h.sent);
        return boxes::done(x, h.used, h.records, None);
    }
    boxes::done(x, 0, 0, None)
}

// 3 ACCEPT_ACK
#[tactic(auto, unfolding(boxes::specs::AcceptAck::on_accept_ack), using(crate::proofs::laws::Steps::marked_result))]
pub fn do_accept_ack(
    plan: Plan,
    mut x: BoxState,
    from: BoxNo,
    job: u8,
    ballots: [Ballot; house::DISTRICTS],
    tray: &mut [u8],
) -> Outcome
    requires { (plan_sound plan ≡ true) × (job < most_jobs) × (length (encode_all plan (records_of (on_accept_ack plan x from job ballots))) ≤ length tray.old) × (accept_ack_answer plan x from job ballots ≡ done) }
    ensures { (result ≡ result_of plan x (on_accept_ack plan x from job ballots)) × (tray.new ≡ onto (encode_all plan (records_of (on_accept_ack plan x from job ballots))) tray.old) }
{
    mark_by(&mut x, job, from);
    when_marked(plan, x, job, tray)
}
