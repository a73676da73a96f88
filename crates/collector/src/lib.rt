// The public face of a box: fresh, receive, post, retry, stand, cut. Each judges first, over the box as it is, and answers for every input.
// The promises stand in specs/Promises.antt, what each does in specs/Step.antt of boxes.
#![tactic(auto)]

ghost use Rattle.std.specs.Prelude.{◌≡◌};
ghost use Rattle.boxes.specs.Sound.{sound};
ghost use Rattle.boxes.specs.Retry.{retries};
ghost use Rattle.boxes.specs.Stand.{standing};
ghost use Rattle.boxes.specs.Step.{may_post, retried, stood};
ghost use Rattle.collector.specs.Face.{admission, Numbering, Answering, Receiving};
ghost use Rattle.collector.specs.Promises.{BoxFresh, BytesReceived, JobRetried, BoxStood, BoxCut, JobPosted};

use boxes::{BoxState, Outcome};
use house::{BoxNo, Plan};
use records::{Answer, Record, Refusal};
use sending::Sent;

// follower, clock 0, everything else none
pub fn fresh_box(own: BoxNo) -> BoxState
    ensures { BoxFresh own result }
{
    boxes::fresh_box(own)
}

// 1 for plan and box, 2 for the tray
fn admit(plan: Plan, x: &BoxState, room: usize) -> Answer
    ensures { result ≡ admission (sound plan x.now) room }
{
    if !soundness::is_sound(plan, x) {
        return Err(Refusal::NotSound);
    }
    if room < house::LEAST_TRAY {
        return Err(Refusal::SmallTray);
    }
    Ok(())
}

// the answer to bytes: 1, 2, then the box's own, or the record that it will act on
fn judge_bytes(plan: Plan, x: &BoxState, bytes: &[u8], room: usize) -> Result<Record, Refusal>
    ensures { Receiving plan x.now bytes.now room result }
{
    admit(plan, x, room)?;
    steps::judge_bytes(plan, x, bytes)
}

// a record's bytes from outside
pub fn receive(plan: Plan, x: BoxState, bytes: &[u8], tray: &mut [u8]) -> Outcome
    ensures { BytesReceived plan x bytes.now tray.old result tray.new }
{
    match judge_bytes(plan, &x, bytes, tray.len()) {
        Ok(r) => steps::act(plan, &x, r, tray),
        Err(why) => boxes::refused(x, why),
    }
}

// the answer to a retry: 1, 2, then its own tests
fn judge_retry(plan: Plan, x: &BoxState, job: u8, room: usize) -> Answer
    ensures { Answering plan x.now (retried plan x.now job room) (retries plan x.now job) room result }
{
    admit(plan, x, room)?;
    jobs::decide_retry(plan, x, job)
}

// a box sends the job's MULTICAST again
pub fn retry_job(plan: Plan, x: BoxState, job: u8, tray: &mut [u8]) -> Outcome
    ensures { JobRetried plan x job tray.old result tray.new }
{
    if let Err(why) = judge_retry(plan, &x, job, tray.len()) {
        return boxes::refused(x, why);
    }
    let s = jobs::do_retry(plan, &x, job, tray);
    boxes::done(x, s.used, s.records, None)
}

// the answer to an order to stand: 1, 2, then its own test
fn judge_stand(plan: Plan, x: &BoxState, room: usize) -> Answer
    ensures { Answering plan x.now (stood plan x.now room) (standing plan x.now) room result × Numbering x.now result }
{
    admit(plan, x, room)?;
    leaders::decide_stand(x)
}

// a box stands for leader of its district
pub fn stand_up(plan: Plan, x: BoxState, tray: &mut [u8]) -> Outcome
    ensures { BoxStood plan x tray.old result tray.new }
{
    if let Err(why) = judge_stand(plan, &x, tray.len()) {
        return boxes::refused(x, why);
    }
    let s = leaders::do_stand(plan, &x, tray);
    boxes::done(x, s.used, s.records, None)
}

// a box loses power: it forgets its volatile part
pub fn cut_off(plan: Plan, x: BoxState) -> Outcome
    ensures { BoxCut plan x result }
{
    if !soundness::is_sound(plan, &x) {
        return boxes::refused(x, Refusal::NotSound);
    }
    boxes::done(boxes::cut_box(x), 0, 0, None)
}

#[tactic(auto, unfolding(boxes::specs::Step::may_post))]
fn may_post(plan: Plan, job: u8, room: usize) -> Answer
    ensures { result ≡ may_post plan job room }
{
    if !house::plan_sound(plan) {
        return Err(Refusal::NotSound);
    }
    if room < house::LEAST_TRAY {
        return Err(Refusal::SmallTray);
    }
    if !house::is_job(plan, job) {
        return Err(Refusal::NotNamed);
    }
    Ok(())
}

// the office posts a job; it has no box
pub fn post_job(plan: Plan, job: u8, tray: &mut [u8]) -> Result<Sent, Refusal>
    ensures { JobPosted plan job tray.old result tray.new }
{
    may_post(plan, job, tray.len())?;
    Ok(jobs::do_post(plan, job, tray))
}
