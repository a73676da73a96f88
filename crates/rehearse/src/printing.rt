// What the program does with what a read gave, and its last words.
// The promises stand in specs/Turns.antt and specs/Printed.antt.
ghost use Rattle.std.specs.Prelude.{◌+◌, ◌≤◌, ◌++◌, ◌≡◌, length};
ghost use Rattle.laws.specs.Tray.{onto};
ghost use Rattle.rehearse.specs.Turns.{Decided, Told};
ghost use Rattle.rehearse.specs.Printed.{LastSaid};

use crate::{Failure, Flow};
use session::Session;

// the room of the last answer and of the report
pub const LAST_ROOM: usize = session::ANSWER_ROOM + closing::REPORT_ROOM;

// what to do after a read gave so many bytes, or failed, and after the text that the bytes gave was written or not
#[tactic(auto, unfolding(crate::specs::Turns::next_of, laws::specs::Choice::pick))]
pub fn next_of(read: Option<usize>, written: bool) -> Result<Flow, Failure>
    ensures { Decided read written result }
{
    let n = read.ok_or(Failure::Read)?;
    if n == 0 {
        return Ok(Flow::End);
    }
    if written {
        return Ok(Flow::More);
    }
    Err(Failure::Write)
}

// whether there is another turn
pub fn goes_on(next: Result<Flow, Failure>) -> bool
    ensures { Told next result }
{
    matches!(next, Ok(Flow::More))
}

// the last answer, and the report behind it
fn put_both(line: &[u8], report: &[u8], t: &mut [u8]) -> usize
    requires { length line.now + length report.now ≤ length t.old }
    ensures { (result ≡ length (line.now ++ report.now)) × (t.new ≡ onto (line.now ++ report.now) t.old) }
{
    let k = report::put(line, t);
    k + report::put(report, &mut t[k..])
}

// the answer to a line that the end of the input ends, then the report
pub fn last_words(s: Session, post: &mut [u8], t: &mut [u8; LAST_ROOM]) -> usize
    ensures { LastSaid s post.old t.old result post.new t.new }
{
    let mut line = [0u8; session::ANSWER_ROOM];
    let fed = session::last_line(s, post, &mut line);
    let mut report = [0u8; closing::REPORT_ROOM];
    let n = closing::close(fed.session.desk.plan, fed.session.night, &mut report);
    put_both(&line[..fed.used], &report[..n], t)
}
