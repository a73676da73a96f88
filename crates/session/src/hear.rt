// What one line does before any box is asked, and what is said when one was.
// The definitions stand in specs/Heard.antt and specs/Hears.antt.
ghost use Rattle.std.specs.Prelude.{true, ◌≡◌, ◌≤◌, length, Err};
ghost use Rattle.laws.specs.Choice.{pick};
ghost use Rattle.laws.specs.Tray.{onto};
ghost use Rattle.boxes.specs.Sound.{sound};
ghost use Rattle.post.specs.Posting.{most_place};
ghost use Rattle.rehearsal.specs.Alone.{Starts};
ghost use Rattle.report.specs.Texts.{turn_text, answer_most};
ghost use Rattle.session.specs.Heard.{unread, plan_line};
ghost use Rattle.session.specs.Hears.{ask_of, settled_text, Plain, Obeys, Hears};

use crate::{Desk, draw};
use boxes::BoxState;
use house::Order;
use lines::Typed;
use records::{Record, Refusal};

// the desk after a line and how many bytes of text it gave; of an order, whether its box is sound, and the record that the box then takes, if it goes
#[derive(Clone, Copy)]
pub struct Heard {
    pub goes: Option<Record>,
    pub desk: Desk,
    pub text: usize,
    pub known: bool,
}

// the answer to a line that is refused
fn say_refused(why: Refusal, t: &mut [u8]) -> usize
    requires { answer_most ≤ length t.old }
    ensures { (result ≤ answer_most) × (result ≡ length (turn_text (Err why))) × (t.new ≡ onto (turn_text (Err why)) t.old) }
{
    report::answer_line(Err(u8::from(why) as u32), t)
}

// a line that is unreadable or misplaced
fn hear_unread(desk: Desk, t: &mut [u8]) -> Heard
    requires { answer_most ≤ length t.old }
    ensures { Plain desk unread result t.old t.new }
{
    let text = say_refused(Refusal::Unreadable, t);
    Heard {
        goes: None,
        desk,
        text,
        known: false,
    }
}

// a plan line: `next` is the desk after it, if it is in place
fn hear_plan(here: bool, desk: Desk, next: Desk, t: &mut [u8]) -> Heard
    requires { answer_most ≤ length t.old }
    ensures { Plain (pick here next desk) (plan_line here) result t.old t.new }
{
    if here {
        return Heard {
            goes: None,
            desk: next,
            text: 0,
            known: false,
        };
    }
    hear_unread(desk, t)
}

// an order fixes the plan, and is refused or goes
fn hear_order(
    desk: Desk,
    known: bool,
    used: usize,
    x: &BoxState,
    order: Order,
    start: usize,
    post: &[u8],
    t: &mut [u8],
) -> Heard
    requires { (answer_most ≤ length t.old) × (known ≡ true → sound desk.plan x.now ≡ true) × (start ≤ most_place) × Starts desk.plan post.now used order start }
    ensures { Obeys desk used x.now post.now order result t.old t.new }
{
    let known = rehearsal::known_sound(desk.plan, known, *x);
    let fixed = draw::fix(desk);
    match rehearsal::judge(desk.plan, known, used, *x, order, start, post) {
        Ok(r) => Heard {
            goes: Some(r),
            desk: fixed,
            text: 0,
            known,
        },
        Err(why) => {
            let text = say_refused(why, t);
            Heard {
                goes: None,
                desk: fixed,
                text,
                known,
            }
        }
    }
}

// the order that a line gives; a plan line asks no box, and the first will do
pub fn order_of(typed: Typed) -> Order
    ensures { result ≡ ask_of typed }
{
    match typed {
        Typed::Given(order) => order,
        Typed::Districts(_) | Typed::Job(_) | Typed::Unreadable => Order::Post(0),
    }
}

// whatever a line says, to the box that it asks
pub fn hear(
    desk: Desk,
    known: bool,
    used: usize,
    x: &BoxState,
    typed: Typed,
    start: usize,
    post: &[u8],
    t: &mut [u8],
) -> Heard
    requires { (answer_most ≤ length t.old) × (known ≡ true → sound desk.plan x.now ≡ true) × (start ≤ most_place) × Starts desk.plan post.now used (ask_of typed) start }
    ensures { Hears desk used x.now post.now typed result t.old t.new }
{
    match typed {
        Typed::Districts(g) => hear_plan(
            draw::districts_here(desk),
            desk,
            draw::with_districts(desk, g),
            t,
        ),
        Typed::Job(m) => hear_plan(draw::job_here(desk), desk, draw::with_job(desk, m), t),
        Typed::Given(o) => hear_order(desk, known, used, x, o, start, post, t),
        Typed::Unreadable => hear_unread(desk, t),
    }
}

// the answer to an order whose box has stepped
#[tactic(auto, unfolding(laws::specs::Choice::pick))]
pub fn say_settled(fits: bool, records: u16, t: &mut [u8]) -> usize
    requires { answer_most ≤ length t.old }
    ensures { (result ≤ answer_most) × (result ≡ length (settled_text fits records)) × (t.new ≡ onto (settled_text fits records) t.old) }
{
    if !fits {
        return say_refused(Refusal::PostFull, t);
    }
    report::answer_line(Ok(records as u32), t)
}
