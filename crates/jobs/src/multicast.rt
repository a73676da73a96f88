// 1 MULTICAST: the tests, the job proposed, the step.
// The definition, on_multicast, stands in specs/Multicast.antt of boxes.
ghost use Rattle.std.specs.Prelude.{◌≡◌, ◌<◌, ◌≤◌, true, length};
ghost use Rattle.house.specs.Limits.{most_time, most_jobs};
ghost use Rattle.boxes.specs.Multicast.{proposed, on_multicast, multicast_answer};
ghost use Rattle.laws.specs.Tray.{onto};
ghost use Rattle.house.specs.Plan.{plan_sound};
ghost use Rattle.records.specs.Bytes.{encode_all};
ghost use Rattle.records.specs.Answers.{done};
ghost use Rattle.boxes.specs.Out.{result_of, records_of};

use boxes::{BoxState, Outcome, Status};
use house::{Plan, Row, Stamp};
use records::{Answer, Refusal};

// 1 MULTICAST: leader only; a new stamp needs room on the clock
#[tactic(auto, unfolding(boxes::specs::Multicast::multicast_answer))]
pub fn decide_multicast(plan: Plan, x: &BoxState, job: u8) -> Answer
    ensures { result ≡ multicast_answer plan x.now job }
{
    if !house::named(plan, job, boxes::home_in(plan, x)) {
        return Err(Refusal::NotNamed);
    }
    if x.core.status != Status::Leader {
        return Err(Refusal::WrongStatus);
    }
    let is_new = boxes::row_at(x, job).phase == house::START;
    if is_new && house::MOST_TIME <= x.core.clock {
        return Err(Refusal::AtLimit);
    }
    boxes::all_passed()
}

// phase 0: clock + 1, new local stamp, phase 1
#[tactic(auto, unfolding(boxes::specs::Multicast::proposed, laws::specs::Choice::pick))]
fn propose(plan: Plan, x: &mut BoxState, job: u8)
    requires { (job < most_jobs) × (x.old.core.clock ≤ most_time) }
    ensures { x.new ≡ proposed plan x.old job }
{
    if boxes::row_at(x, job).phase != house::START {
        return;
    }
    let time = x.core.clock + 1;
    let local = Stamp {
        time,
        district: boxes::home_in(plan, x),
    };
    let new = Row {
        phase: house::PROPOSED,
        local,
        global: house::no_stamp(),
    };
    boxes::put_row(x, time, job as usize, new);
}

// 1 MULTICAST
#[tactic(auto, unfolding(boxes::specs::Multicast::on_multicast), using(crate::proofs::laws::Steps::sent_accepts, sending::proofs::laws::Sends::sends_as))]
pub fn do_multicast(plan: Plan, mut x: BoxState, job: u8, tray: &mut [u8]) -> Outcome
    requires { (plan_sound plan ≡ true) × (job < most_jobs) × (x.core.clock ≤ most_time) × (length (encode_all plan (records_of (on_multicast plan x job))) ≤ length tray.old) × (multicast_answer plan x job ≡ done) }
    ensures { (result ≡ result_of plan x (on_multicast plan x job)) × (tray.new ≡ onto (encode_all plan (records_of (on_multicast plan x job))) tray.old) }
{
    propose(plan, &mut x, job);
    let r = sending::accept_record(&x, x.core.own, job);
    let meant = house::named_boxes(plan, job);
    sending::done_sending(plan, x, r, meant, tray)
}
