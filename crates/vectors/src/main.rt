// Vectors of records: each line of ../stdin is a plan, bytes to read or a record to write; what it must say stands in ../stdout.
#![tactic(auto)]

ghost use Rattle.std.specs.Prelude.{◌<◌, ◌≤◌, ◌+◌, ◌≡◌, ℕ, IfOk, IfSome, None, Some, drop, eqb, length, position, take};
ghost use Rattle.std.specs.Option.{MatchOption};

mod forms;
mod showing;

use house::Plan;
use records::Record;
use std::array;
use std::io::{self, Print, Read, Stdin};

// no more of standard input is read
const MOST_INPUT: usize = 131_072;

const TRAY: usize = 4200;

// what the tray's byte i is before anything is written
fn fill(i: usize) -> u8 {
    (i % 101) as u8 + 100
}

fn filled() -> [u8; TRAY] {
    array::from_fn(fill)
}

// every byte of the tray from n on is as it was
fn is_kept(tray: &[u8; TRAY], n: usize) -> bool {
    let before = filled();
    tray.get(n..) == before.get(n..)
}

fn show_kept(rt: &impl Print, tray: &[u8; TRAY], n: usize) -> io::Result<()> {
    let word = if is_kept(tray, n) { "kept" } else { "changed" };
    print!(rt; " {word}")
}

// writes a record that was read from s: whether its bytes are the same, and the tray behind them kept
fn again(rt: &impl Print, plan: Plan, r: Record, s: &[u8]) -> io::Result<()> {
    let mut tray = filled();
    let n = writer::write_record(plan, r, &mut tray).unwrap_or(0);
    if tray.get(..n) == Some(s) {
        print!(rt; " same")?;
    }
    show_kept(rt, &tray, n)
}

// the reader's answer and record, and the record written again
fn read(rt: &impl Print, plan: Plan, s: &[u8]) -> io::Result<()> {
    let answer = reader::read_record(plan, s);
    showing::show_answer(rt, answer)?;
    match answer {
        Ok(r) => {
            showing::show_record(rt, r)?;
            again(rt, plan, r, s)
        }
        Err(_) => showing::show_record(rt, records::no_record()),
    }
}

// the writer's answer for a tray of so many bytes, whether the tray behind is kept, what was written, and what the reader says of it
fn write(rt: &impl Print, plan: Plan, r: Record, room: usize) -> io::Result<()> {
    let mut tray = filled();
    let Some(front) = tray.get_mut(..room) else {
        return Ok(());
    };
    let answer = writer::write_record(plan, r, front);
    showing::show_answer(rt, answer)?;
    let n = answer.unwrap_or(0);
    show_kept(rt, &tray, n)?;
    match tray.get(..n) {
        Some(written) if 0 < n => {
            showing::show_bytes(rt, written)?;
            read(rt, plan, written)
        }
        _ => Ok(()),
    }
}

// what a line's bytes say under its verb; the plan of the lines behind it
fn act(
    rt: &impl Print,
    plan: Plan,
    verb: &[u8],
    b: [u8; forms::BYTES],
    n: usize,
) -> io::Result<Plan> {
    let mut next = plan;
    if verb == b"plan".as_slice() {
        next = forms::plan_of(&b, n);
    } else if verb == b"read".as_slice() {
        read(rt, plan, &b[..n.min(b.len())])?;
    } else if verb == b"write".as_slice() {
        let room = forms::two(forms::byte(&b, 0, 0), forms::byte(&b, 0, 1));
        write(rt, plan, forms::record_of(&b, n), room as usize)?;
    }
    println!(rt)?;
    Ok(next)
}

// what stands before the first byte b and what stands behind it, where there is one
fn split_once(s: &[u8], b: u8) -> Option<(&[u8], &[u8])>
    ensures first { MatchOption result (position (λ x. eqb x b) s.now ≡ None) (λ parts. (k : ℕ) × (position (λ x. eqb x b) s.now ≡ Some k) × (parts.0.now ≡ take k s.now) × (parts.1.now ≡ drop (k + 1) s.now)) }
    ensures less { IfSome result (λ parts. length parts.1.now < length s.now) }
{
    let k = s.iter().position(|x| *x == b)?;
    Some((&s[..k], &s[k + 1..]))
}

// a line: its verb and its name, which are shown, and its bytes
fn line(rt: &impl Print, plan: Plan, s: &[u8]) -> io::Result<Plan> {
    let Some((verb, rest)) = split_once(s, b' ') else {
        return Ok(plan);
    };
    if s.first() == Some(&b'#') {
        return Ok(plan);
    }
    let (name, text) = split_once(rest, b' ').unwrap_or((rest, &[]));
    let mut b = [0u8; forms::BYTES];
    let n = forms::bytes_of(text, &mut b);
    rt.write_all(verb)?;
    rt.write_all(b" ")?;
    rt.write_all(name)?;
    act(rt, plan, verb, b, n)
}

fn all_lines(rt: &impl Print, s: &[u8]) -> io::Result<()> {
    let mut plan = Plan {
        districts: 0,
        jobs: 0,
        masks: [0; house::JOBS],
    };
    let mut rest = s;
    while !rest.is_empty() {
        let (first, behind) = split_once(rest, b'\n').unwrap_or((rest, &[]));
        plan = line(rt, plan, first)?;
        rest = behind;
    }
    Ok(())
}

// Reads until the buffer is full or the input ends, and says how many bytes came.
// Stays: how far a turn of the loop goes is what the read says, and read_to_end wants a Vec, which the project's rule of fixed memory rules out.
fn read_full(mut from: Stdin, input: &mut [u8]) -> io::Result<usize>
    ensures { IfOk result (λ n. n ≤ length input.new) }
{
    let mut n = 0;
    while n < input.len() {
        let got = from.read(&mut input[n..])?;
        if got == 0 {
            return Ok(n);
        }
        n += got;
    }
    Ok(n)
}

fn main(rt: HostRuntime) -> io::Result<()> {
    let mut input = [0u8; MOST_INPUT];
    let n = read_full(rt.stdin(), &mut input)?;
    all_lines(&rt, &input[..n])
}
