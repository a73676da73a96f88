// A night: fresh boxes and an empty post, and one order rehearsed over them.
// The promises stand in specs/Promises.antt.
ghost use Rattle.std.specs.Prelude.{◌≡◌, ◌<◌, set};
ghost use Rattle.house.specs.Limits.{most_boxes};
ghost use Rattle.rehearsal.specs.Night.{box_in};
ghost use Rattle.rehearsal.specs.Alone.{Stands};
ghost use Rattle.rehearsal.specs.Steps.{Goes};
ghost use Rattle.rehearsal.specs.Promises.{NightFresh, OrderRehearsed};

use crate::{Night, exists, judging, settling};
use boxes::BoxState;
use house::{BoxNo, Order, Plan};
use post::Index;
use records::{Record, Refusal};

// done: how many records were written; refused: the number, and the same night
#[derive(Clone, Copy)]
pub struct Turn {
    pub night: Night,
    pub answer: Result<u16, Refusal>,
}

fn put_box(night: Night, at: usize, x: BoxState, used: usize) -> Night
    requires { at < most_boxes }
    ensures { result ≡ record { boxes = set night.boxes at x; used = used } }
{
    let mut boxes = night.boxes;
    boxes[at] = x;
    Night { boxes, used }
}

fn box_at(night: Night, at: usize) -> BoxState
    requires { at < most_boxes }
    ensures { result ≡ box_in night at }
{
    night.boxes[at]
}

// an order that nothing refuses but a full post, in its night
fn carry_out(plan: Plan, night: Night, at: usize, order: Order, r: Record, post: &mut [u8]) -> Turn
    requires { (at < most_boxes) × Goes plan night.used (box_in night at) post.old order r }
    ensures { Stands plan night.used (box_in night at) post.old order night at → OrderRehearsed plan night post.old order result post.new }
{
    let x = box_at(night, at);
    let mut tray = [0u8; house::LEAST_TRAY];
    let out = settling::step(plan, &x, order, r, &mut tray);
    match settling::settle(night.used, out.used, &tray, post) {
        Some(used) => Turn {
            night: put_box(night, at, out.state, used),
            answer: Ok(out.records),
        },
        None => Turn {
            night,
            answer: Err(Refusal::PostFull),
        },
    }
}

// one order, carried out or refused
pub fn rehearse(plan: Plan, night: Night, order: Order, post: &mut [u8]) -> Turn
    ensures { OrderRehearsed plan night post.old order result post.new }
{
    let mut places = [0];
    let mut index = Index::new(&mut places);
    let place = exists::find(plan, false, night.used, order, post, &mut index);
    let x = box_at(night, place.at);
    let known = soundness::is_sound(plan, &x);
    match judging::judge(plan, known, night.used, x, order, place.start, post) {
        Ok(r) => carry_out(plan, night, place.at, order, r, post),
        Err(why) => Turn {
            night,
            answer: Err(why),
        },
    }
}

// fresh boxes and an empty post
pub fn fresh_night() -> Night
    ensures { NightFresh result }
{
    let boxes = std::array::from_fn(|at| boxes::fresh_box(BoxNo(at as u8)));
    Night { boxes, used: 0 }
}
