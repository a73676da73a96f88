// Bytes, plans and records from text in hex. The forms stand at the head of ../stdin.
ghost use Rattle.std.specs.Prelude.{◌<◌, ◌≤◌, IfSome};

use house::{Ballot, BoxNo, Plan, Row, Stamp};
use records::{Part, Record};
use std::array;

// how many bytes a line says at most
pub const BYTES: usize = 1024;

// the signs of the first ballot and of the first stamp; those below are of rows
const BALLOT: u8 = 0xb0;

const STAMP: u8 = 0xc0;

// the value of a hex digit
fn digit(b: u8) -> Option<u8>
    ensures { IfSome result (λ v. v < 16) }
{
    match b {
        b'0'..=b'9' => Some(b - b'0'),
        b'a'..=b'f' => Some(b - b'a' + 10),
        _ => None,
    }
}

// one digit more behind the first n, of which two are a byte; what is no digit is passed over
fn push(out: &mut [u8; BYTES], n: usize, b: u8) -> usize {
    match digit(b) {
        Some(v) if n / 2 < BYTES => {
            out[n / 2] = out[n / 2] % 16 * 16 + v;
            n + 1
        }
        _ => n,
    }
}

// the bytes that a text says; how many they are
pub fn bytes_of(text: &[u8], out: &mut [u8; BYTES]) -> usize {
    let mut n = 0;
    for b in text {
        n = push(out, n, *b);
    }
    n / 2
}

// byte k from place at on, 0 behind the last
pub fn byte(b: &[u8; BYTES], at: u16, k: u16) -> u8 {
    b.get(at as usize + k as usize).copied().unwrap_or(0)
}

// numbers have the big end first
pub fn two(a: u8, b: u8) -> u16 {
    u16::from_be_bytes([a, b])
}

// the ballot, the stamp or the row behind the sign of a place
fn part_at<T: Part>(b: &[u8; BYTES], at: u16) -> T
    requires { T.WIDTH ≤ 11 }
{
    let first = at as usize + 1;
    let bytes: [u8; Row::WIDTH] = array::from_fn(|k| b.get(first + k).copied().unwrap_or(0));
    T::get(&bytes)
}

// nothing where there is no such place
fn set<T: Copy>(parts: &mut [T], place: u8, part: T) {
    if let Some(p) = parts.get_mut(place as usize) {
        *p = part;
    }
}

// the place that stands at so many bytes
fn set_place(r: &mut Record, b: &[u8; BYTES], at: u16) {
    let sign = byte(b, at, 0);
    if sign < BALLOT {
        set(&mut r.table, sign, part_at(b, at));
    } else if sign < STAMP {
        set(&mut r.ballots, sign - BALLOT, part_at(b, at));
    } else {
        set(&mut r.stamps, sign - STAMP, part_at(b, at));
    }
}

// how many bytes a place has with its sign
fn width(sign: u8) -> u16
    ensures { (1 ≤ result) × (result ≤ 12) }
{
    let part = if sign < BALLOT {
        Row::WIDTH
    } else if sign < STAMP {
        Ballot::WIDTH
    } else {
        Stamp::WIDTH
    };
    1 + part as u16
}

// kind, from, to, job behind the room's two bytes, and every other place none
fn head(b: &[u8; BYTES]) -> Record {
    Record {
        kind: byte(b, 0, 2),
        from: BoxNo(byte(b, 0, 3)),
        to: BoxNo(byte(b, 0, 4)),
        job: byte(b, 0, 5),
        ..records::no_record()
    }
}

// the record of the first n bytes, behind the room
pub fn record_of(b: &[u8; BYTES], n: usize) -> Record {
    let end = n.min(BYTES) as u16;
    let mut r = head(b);
    let mut at = 6;
    while at < end {
        set_place(&mut r, b, at);
        at += width(byte(b, at, 0));
    }
    r
}

// districts, jobs, and masks, of which the last is that of all jobs behind
pub fn plan_of(b: &[u8; BYTES], n: usize) -> Plan {
    let mut masks = [0; house::JOBS];
    let mut last = 0;
    for (mask, k) in masks.iter_mut().zip(2..u16::MAX) {
        if (k as usize) < n {
            last = byte(b, 0, k);
        }
        *mask = last;
    }
    Plan {
        districts: byte(b, 0, 0),
        jobs: byte(b, 0, 1),
        masks,
    }
}
