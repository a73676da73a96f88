// The step of a record that is not refused, whatever its kind.
// What it does stands in specs/Step.antt of boxes.
ghost use Rattle.std.specs.Prelude.{◌≡◌, length};
ghost use Rattle.laws.specs.Tray.{onto};
ghost use Rattle.records.specs.Rec.{meaning};
ghost use Rattle.records.specs.Answers.{done};
ghost use Rattle.records.specs.Bytes.{encode_all};
ghost use Rattle.boxes.specs.Out.{result_of, records_of};
ghost use Rattle.boxes.specs.Step.{react};
ghost use Rattle.steps.specs.Acting.{Acting};
ghost use Rattle.steps.specs.Judged.{judged};

use crate::said::{self, Said};
use boxes::{BoxState, Outcome};
use house::Plan;
use records::Record;

// the step
#[tactic(auto, unfolding(crate::specs::Said::says, crate::specs::Judged::judged, boxes::specs::Step::react))]
pub fn act(plan: Plan, x: &BoxState, r: Record, tray: &mut [u8]) -> Outcome
    requires { Acting plan x.now r (length tray.old) × (judged plan x.now (meaning r) ≡ done) }
    ensures { (result ≡ result_of plan x.now (react plan x.now (meaning r))) × (tray.new ≡ onto (encode_all plan (records_of (react plan x.now (meaning r)))) tray.old) }
{
    match said::said_by(r) {
        Said::Multicast(job) => jobs::do_multicast(plan, *x, job, tray),
        Said::Accept(job, y) => jobs::do_accept(plan, *x, r.from, job, y, tray),
        Said::AcceptAck(job, ballots) => jobs::do_accept_ack(plan, *x, r.from, job, ballots, tray),
        Said::Deliver(job, y) => jobs::do_deliver(plan, *x, job, y),
        Said::Newleader(b) => leaders::do_newleader(plan, *x, r.from, b, tray),
        Said::NewleaderAck(y) => leaders::do_newleader_ack(plan, *x, r.from, y, tray),
        Said::NewState(y) => leaders::do_new_state(plan, *x, r.from, y, tray),
        Said::NewstateAck(b) => leaders::do_newstate_ack(plan, *x, b, tray),
    }
}
