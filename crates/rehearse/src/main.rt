// The rehearse program: orders from standard input, an answer to each, and a report at the end.
// What is fed, said and decided is proved; only the calls that read and write stay outside (specs/Turns.antt says what a run is).
#![tactic(auto)]

mod printing;

ghost use Rattle.rehearse.specs.Turns.{OneTurn, Ran};

use session::Session;
use std::fmt;
use std::io::{Print, Read};

// what follows a turn in which no call failed: more turns, or the input has ended
#[derive(Clone, Copy, Debug, PartialEq, Eq)]
pub enum Flow {
    More,
    End,
}

// why a run breaks off
#[derive(Clone, Copy, Debug, PartialEq, Eq)]
pub enum Failure {
    Read,
    Write,
    TooManyReads,
}

impl fmt::Display for Failure {
    fn fmt<W: fmt::Write>(&self, f: &mut fmt::Formatter<W>) -> fmt::Result {
        f.write_str(match self {
            Failure::Read => "standard input cannot be read",
            Failure::Write => "standard output cannot be written",
            Failure::TooManyReads => "too many reads",
        })
    }
}

// One turn: reads, writes the answers to the lines that end there, and says what comes next.
fn one_turn(rt: &HostRuntime, session: &mut Session, post: &mut [u8]) -> Result<Flow, Failure>
    ensures { OneTurn session.old post.old session.new result post.new }
{
    let mut input = [0u8; session::CHUNK];
    let read = rt.stdin().read(&mut input).ok();
    let mut out = [0u8; session::CHUNK_ROOM];
    let fed = session::feed_chunk(*session, &input, read.unwrap_or(0), post, &mut out);
    *session = fed.session;
    let written = rt.write_all(&out[..fed.used]).is_ok();
    printing::next_of(read, written)
}

// All turns. A proved loop ends, and nothing says that the input does: the loop has a count that no run uses up.
fn all_turns(rt: &HostRuntime, session: &mut Session, post: &mut [u8]) -> Result<Flow, Failure>
    ensures { Ran session.old post.old session.new result post.new }
{
    for _ in 0..u64::MAX {
        let next = one_turn(rt, session, post);
        if !printing::goes_on(next) {
            return next;
        }
    }
    Ok(Flow::More)
}

// Behind the end of the input: the last answer and the report.
fn end(rt: &HostRuntime, session: Session, post: &mut [u8]) -> Result<(), Failure> {
    let mut out = [0u8; printing::LAST_ROOM];
    let used = printing::last_words(session, post, &mut out);
    rt.write_all(&out[..used]).map_err(|_| Failure::Write)
}

fn run(rt: &HostRuntime) -> Result<(), Failure> {
    let mut session = session::fresh_session();
    let mut post = [0u8; house::MOST_POST];
    match all_turns(rt, &mut session, &mut post)? {
        Flow::End => end(rt, session, &mut post),
        Flow::More => Err(Failure::TooManyReads),
    }
}

fn main(rt: HostRuntime) {
    if let Err(failure) = run(&rt) {
        // nothing is left to do where this fails too
        let _ = eprintln!(rt; "rehearse: {failure}");
    }
}
