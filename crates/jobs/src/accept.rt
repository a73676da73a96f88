// 2 ACCEPT: the tests, the record kept, the job accepted, the step.
// The definition, on_accept, stands in specs/Accept.antt of boxes.
ghost use Rattle.std.specs.Prelude.{◌≡◌, ◌<◌, ◌≤◌, true, length};
ghost use Rattle.house.specs.Limits.{most_districts, most_jobs};
ghost use Rattle.house.specs.Marks.{marks_of};
ghost use Rattle.boxes.specs.Accept.{ballot_fits, stamp_fits, same_kept, kept, kept_below, all_kept, latest_kept, accepted_row, accepted, kept_leader, when_kept, on_accept, accept_answer};
ghost use Rattle.house.specs.Plan.{boxes_of, home_of, plan_sound};
ghost use Rattle.laws.specs.Tray.{onto};
ghost use Rattle.records.specs.Answers.{done};
ghost use Rattle.records.specs.Bytes.{encode_all};
ghost use Rattle.boxes.specs.Out.{result_of, records_of};

use boxes::{BoxState, Outcome, Status};
use house::{BoxNo, District, Plan, Row, Stamp};
use records::{Answer, Proposal, Refusal};

// 2 ACCEPT: the own district's ballot must be cballot, another's not below the kept one
#[tactic(auto, unfolding(boxes::specs::Accept::ballot_fits, laws::specs::Choice::pick, house::specs::Pairs::same_ballot, house::specs::Pairs::ballot_lt))]
fn ballot_fits(plan: Plan, x: &BoxState, job: u8, d: District, y: Proposal) -> bool
    ensures { result ≡ ballot_fits plan x.now job d y }
{
    if d == boxes::home_in(plan, x) {
        return y.ballot == x.core.cballot;
    }
    y.ballot >= boxes::kept_ballot(x, job, d)
}

// an equal ballot with another stamp is refused
#[tactic(auto, unfolding(boxes::specs::Accept::stamp_fits, house::specs::Pairs::same_ballot, house::specs::Pairs::same_stamp))]
fn stamp_fits(x: &BoxState, job: u8, d: District, y: Proposal) -> bool
    ensures { result ≡ stamp_fits x.now job d y }
{
    y.ballot != boxes::kept_ballot(x, job, d) || y.stamp == boxes::kept_stamp(x, job, d)
}

// the same ACCEPT is kept already
#[tactic(auto, unfolding(boxes::specs::Accept::same_kept, house::specs::Pairs::same_ballot, house::specs::Pairs::same_stamp))]
fn same_kept(x: &BoxState, job: u8, d: District, y: Proposal) -> bool
    ensures { result ≡ same_kept x.now job d y }
{
    y.ballot == boxes::kept_ballot(x, job, d) && y.stamp == boxes::kept_stamp(x, job, d)
}

#[tactic(auto, unfolding(boxes::specs::Accept::accept_answer))]
pub fn decide_accept(plan: Plan, x: &BoxState, from: BoxNo, job: u8, y: Proposal) -> Answer
    ensures { result ≡ accept_answer plan x.now from job y }
{
    if !house::named(plan, job, boxes::home_in(plan, x)) {
        return Err(Refusal::NotNamed);
    }
    if x.core.status == Status::Recovering {
        return Err(Refusal::WrongStatus);
    }
    let d = house::home_of(plan, from);
    if !(ballot_fits(plan, x, job, d, y) && stamp_fits(x, job, d, y)) {
        return Err(Refusal::WrongBallot);
    }
    boxes::all_passed()
}

// keep it; a change clears the marks
#[tactic(auto, unfolding(boxes::specs::Accept::kept, laws::specs::Choice::pick))]
fn keep(x: &mut BoxState, job: u8, d: District, y: Proposal)
    requires { (job < most_jobs) × (d.0 < most_districts) }
    ensures { x.new ≡ kept x.old job d y }
{
    let marks = if same_kept(x, job, d, y) {
        boxes::marks_at(x, job)
    } else {
        house::no_marks()
    };
    boxes::put_kept(x, job as usize, d, y.ballot, y.stamp, marks);
}

// an ACCEPT is kept for each of the first n districts that the job names
fn kept_below(plan: Plan, x: &BoxState, job: u8, n: u8) -> bool
    ensures { result ≡ kept_below plan x.now job n }
{
    (0..n).all(|d| {
        let d = District(d);
        !house::named(plan, job, d) || boxes::kept_ballot(x, job, d) != house::no_ballot()
    })
}

// all named districts are kept, and the own one has cballot
#[tactic(auto, unfolding(boxes::specs::Accept::all_kept, house::specs::Pairs::same_ballot))]
fn all_kept(plan: Plan, x: &BoxState, job: u8) -> bool
    ensures { result ≡ all_kept plan x.now job }
{
    let own = boxes::kept_ballot(x, job, boxes::home_in(plan, x));
    kept_below(plan, x, job, plan.districts) && own == x.core.cballot
}

// the largest of the stamps kept for the named ones of the first n districts
pub fn latest_kept(plan: Plan, x: &BoxState, job: u8, n: u8) -> Stamp
    ensures { result ≡ latest_kept plan x.now job n }
{
    (0..n)
        .map(District)
        .filter(|d| house::named(plan, job, *d))
        .fold(
            house::no_stamp(),
            |s, d| s.max(boxes::kept_stamp(x, job, d)),
        )
}

// phase 0 or 1 becomes 2; unless phase 3, the own stamp is stored (H)
#[tactic(auto, unfolding(boxes::specs::Accept::accepted_row, laws::specs::Choice::pick))]
fn row_accepted(row: Row, s: Stamp) -> Row
    ensures { result ≡ accepted_row row s }
{
    if row.phase == house::COMMITTED {
        return row;
    }
    Row {
        phase: house::ACCEPTED,
        local: s,
        global: house::no_stamp(),
    }
}

#[tactic(auto, unfolding(boxes::specs::Accept::accepted))]
fn accept(plan: Plan, x: &mut BoxState, job: u8)
    requires { job < most_jobs }
    ensures { x.new ≡ accepted plan x.old job }
{
    let own = boxes::kept_stamp(x, job, boxes::home_in(plan, x));
    let new = row_accepted(boxes::row_at(x, job), own);
    let latest = latest_kept(plan, x, job, plan.districts);
    let clock = boxes::raise(x.core.clock, latest.time);
    boxes::put_row(x, clock, job as usize, new);
}

// the boxes of the ballots kept for the named districts
fn kept_leaders(plan: Plan, x: &BoxState, job: u8) -> u32
    requires { plan_sound plan ≡ true }
    ensures { result ≡ marks_of (kept_leader plan x.now job) (boxes_of plan) }
{
    house::boxes_where(plan, |p| {
        let home = house::home_of(plan, p);
        house::named(plan, job, home) && boxes::kept_ballot(x, job, home).owner == p
    })
}

// 2 ACCEPT, once it is kept
#[tactic(auto, unfolding(boxes::specs::Accept::when_kept, laws::specs::Choice::pick), using(crate::proofs::laws::Steps::sent_acks, sending::proofs::laws::Sends::sends_as, records::proofs::laws::Bytes::encode_none, laws::proofs::laws::Tray::onto_nil))]
fn when_kept(plan: Plan, mut x: BoxState, job: u8, tray: &mut [u8]) -> Outcome
    requires { (plan_sound plan ≡ true) × (job < most_jobs) × (length (encode_all plan (records_of (when_kept plan x job))) ≤ length tray.old) }
    ensures { (result ≡ result_of plan x (when_kept plan x job)) × (tray.new ≡ onto (encode_all plan (records_of (when_kept plan x job))) tray.old) }
{
    if all_kept(plan, &x, job) {
        accept(plan, &mut x, job);
        let r = sending::ack_record(plan, &x, x.core.own, job);
        let meant = kept_leaders(plan, &x, job);
        return sending::done_sending(plan, x, r, meant, tray);
    }
    boxes::done(x, 0, 0, None)
}

// 2 ACCEPT
#[tactic(auto, unfolding(boxes::specs::Accept::on_accept), using(crate::proofs::laws::Steps::kept_result))]
pub fn do_accept(
    plan: Plan,
    mut x: BoxState,
    from: BoxNo,
    job: u8,
    y: Proposal,
    tray: &mut [u8],
) -> Outcome
    requires { (plan_sound plan ≡ true) × (job < most_jobs) × ((home_of plan from).0 < most_districts) × (length (encode_all plan (records_of (on_accept plan x from job y))) ≤ length tray.old) × (accept_answer plan x from job y ≡ done) }
    ensures { (result ≡ result_of plan x (on_accept plan x from job y)) × (tray.new ≡ onto (encode_all plan (records_of (on_accept plan x from job y))) tray.old) }
{
    keep(&mut x, job, house::home_of(plan, from), y);
    when_kept(plan, x, job, tray)
}
