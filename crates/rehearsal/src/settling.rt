// What an order does to its box and to the post, once nothing refuses it.
// The definition, Settles, stands in specs/Settled.antt.
ghost use Rattle.std.specs.Prelude.{◌≡◌, true, [], ◌≤◌, length};
ghost use Rattle.laws.specs.Tray.{onto};
ghost use Rattle.house.specs.Limits.{least_tray};
ghost use Rattle.house.specs.Plan.{plan_sound};
ghost use Rattle.records.specs.Bytes.{encode_all};
ghost use Rattle.boxes.specs.Cut.{cut};
ghost use Rattle.boxes.specs.Out.{does, result_of, records_of};
ghost use Rattle.rehearsal.specs.Steps.{step_of, Can};
ghost use Rattle.rehearsal.specs.Settled.{Settles};

use boxes::{BoxState, Outcome};
use house::{Order, Plan};
use records::Record;

// the box forgets its volatile part
fn cut_only(x: BoxState) -> Outcome
    ensures { (P : Plan) → result ≡ result_of P x (does (cut x) [] None) }
{
    boxes::done(boxes::cut_box(x), 0, 0, None)
}

// the step of an order that nothing refuses
pub fn step(plan: Plan, x: &BoxState, order: Order, r: Record, tray: &mut [u8]) -> Outcome
    requires { (plan_sound plan ≡ true) × Can plan x.now order r × (length (encode_all plan (records_of (step_of plan x.now order r))) ≤ least_tray) × (length tray.old ≡ least_tray) }
    ensures { (result ≡ result_of plan x.now (step_of plan x.now order r)) × (tray.new ≡ onto (encode_all plan (records_of (step_of plan x.now order r))) tray.old) }
{
    match order {
        Order::Post(j) => {
            let s = jobs::do_post(plan, j as u8, tray);
            boxes::done(*x, s.used, s.records, None)
        }
        Order::Stand(_) => {
            let s = leaders::do_stand(plan, x, tray);
            boxes::done(*x, s.used, s.records, None)
        }
        Order::Retry(_, j) => {
            let s = jobs::do_retry(plan, x, j as u8, tray);
            boxes::done(*x, s.used, s.records, None)
        }
        Order::Cut(_) => cut_only(*x),
        Order::Carry(_) => steps::act(plan, x, r, tray),
    }
}

// a step wrote so many bytes of the tray: they go behind the last record if they fit; how much of the post is used then
pub fn settle(used: usize, more: usize, tray: &[u8], post: &mut [u8]) -> Option<usize>
    requires { more ≤ length tray.now }
    ensures { Settles used more tray.now post.old result post.new }
{
    if more == 0 {
        return Some(used);
    }
    let room = post::room_of(post);
    if !post::more_fits(used, more, room) {
        return None;
    }
    post::put_behind(post, used, &tray[..more]);
    Some(used + more)
}
