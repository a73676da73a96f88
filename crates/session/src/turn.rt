// One line read out of a chunk, and its order settled over its box.
// The promises stand in specs/Asked.antt and specs/Turned.antt.
ghost use Rattle.std.specs.Prelude.{true, ◌≡◌, ◌≤◌, ◌<◌, length};
ghost use Rattle.report.specs.Texts.{answer_most};
ghost use Rattle.boxes.specs.Sound.{sound};
ghost use Rattle.post.specs.Posting.{most_place};
ghost use Rattle.post.specs.Index.{Indexed};
ghost use Rattle.rehearsal.specs.Alone.{Starts};
ghost use Rattle.session.specs.Hears.{ask_of};
ghost use Rattle.session.specs.Asked.{ReadsOn, Asks};
ghost use Rattle.session.specs.Turned.{Finishes, Turns};

use crate::{Desk, hear};
use boxes::BoxState;
use lines::{LineState, Typed};
use post::Index;
use rehearsal::Place;

// the line after some bytes, and the place of the LF that ends it, or the end of the bytes
#[derive(Clone, Copy)]
struct Scan {
    line: LineState,
    at: usize,
}

// what comes in a chunk from a place on: the line that is then coming, the place behind, and the line that ended, if one did
#[derive(Clone, Copy)]
pub struct Asked {
    pub line: LineState,
    pub next: usize,
    pub ended: Option<Line>,
}

// a line that ended: what it says, and which box it asks
#[derive(Clone, Copy)]
pub struct Line {
    pub typed: Typed,
    pub place: Place,
}

// an order is done: how much of the post is used, if its records fit, and how many bytes of text it gave
#[derive(Clone, Copy)]
struct Finished {
    used: Option<usize>,
    text: usize,
}

// an order is carried out or refused: the plan; how much of the post is used, how many bytes of text it gave; and whether the box, as it
// was, is known to be sound
#[derive(Clone, Copy)]
pub struct Turned {
    pub desk: Desk,
    pub used: usize,
    pub text: usize,
    pub known: bool,
}

// the rest of a line, up to its LF or the end of the chunk
fn read_on(line: LineState, chunk: &[u8], from: usize) -> Scan
    requires { from ≤ length chunk.now }
    ensures { ReadsOn line chunk.now from result }
{
    let rest = &chunk[from..];
    let len = rest
        .iter()
        .position(|&byte| byte == b'\n')
        .unwrap_or(rest.len());
    // No more of a line is kept than it has bytes, so what comes behind them is not pushed.
    let most = len.min(line.bytes.len());
    let line = rest[..most]
        .iter()
        .fold(line, |held, &byte| lines::push(held, byte));
    Scan {
        line,
        at: from + len,
    }
}

// the rest of a line, and what it asks
pub fn ask(
    line: LineState,
    desk: Desk,
    used: usize,
    chunk: &[u8],
    from: usize,
    post: &[u8],
    index: &mut Index<'_>,
) -> Asked
    requires { (from < length chunk.now) × Indexed desk.plan post.now used index.old.places.now index.old.last }
    ensures { Asks line desk used chunk.now from post.now index.old result index.new }
{
    let scan = read_on(line, chunk, from);
    if chunk.len() <= scan.at {
        return Asked {
            line: scan.line,
            next: scan.at,
            ended: None,
        };
    }
    let typed = lines::order_held(scan.line);
    let order = hear::order_of(typed);
    let place = rehearsal::find(desk.plan, desk.fixed, used, order, post, index);
    Asked {
        line: lines::no_line(),
        next: scan.at + 1,
        ended: Some(Line { typed, place }),
    }
}

// a box has stepped: its records go behind the last if they fit, and its order is answered
fn finish(
    used: usize,
    more: usize,
    records: u16,
    tray: &[u8],
    post: &mut [u8],
    t: &mut [u8],
) -> Finished
    requires { (more ≤ length tray.now) × (answer_most ≤ length t.old) }
    ensures { Finishes used more records tray.now post.old t.old result post.new t.new }
{
    let used = rehearsal::settle(used, more, tray, post);
    let text = hear::say_settled(used.is_some(), records, t);
    Finished { used, text }
}

// the order of a line and the box that it asks, which takes its new state in its place where it has one
pub fn turn(
    desk: Desk,
    sure: bool,
    used: usize,
    x: &mut BoxState,
    typed: Typed,
    start: usize,
    post: &mut [u8],
    t: &mut [u8],
) -> Turned
    requires { (answer_most ≤ length t.old) × (sure ≡ true → sound desk.plan x.old ≡ true) × (start ≤ most_place) × Starts desk.plan post.old used (ask_of typed) start }
    ensures { Turns desk used x.old post.old typed result x.new post.new t.old t.new }
{
    let h = hear::hear(desk, sure, used, x, typed, start, post, t);
    let Some(r) = h.goes else {
        return Turned {
            desk: h.desk,
            used,
            text: h.text,
            known: h.known,
        };
    };
    let mut tray = [0u8; house::LEAST_TRAY];
    let out = rehearsal::step(desk.plan, x, hear::order_of(typed), r, &mut tray);
    let f = finish(used, out.used, out.records, &tray, post, t);
    match f.used {
        Some(used) => {
            *x = out.state;
            Turned {
                desk: h.desk,
                used,
                text: f.text,
                known: h.known,
            }
        }
        None => Turned {
            desk: h.desk,
            used,
            text: f.text,
            known: h.known,
        },
    }
}
