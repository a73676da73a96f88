// A chunk of input fed to a session, and the line that the end of the input ends.
// The promises stand in specs/Promises.antt.
ghost use Rattle.std.specs.Prelude.{◌*◌, ◌≤◌, length};
ghost use Rattle.report.specs.Texts.{answer_most};
ghost use Rattle.session.specs.Session.{chunk_of};
ghost use Rattle.session.specs.Promises.{Begun, Leaves, ChunkFed, LastFed};

use crate::{Session, draw, turn};
use post::{INDEX_ROOM, Index};
use rehearsal::Night;

// the session after some input, and how many bytes of text it gave
#[derive(Clone, Copy)]
pub struct Fed {
    pub session: Session,
    pub used: usize,
}

// nothing is read. The night is made last: a field that is made before the others is kept while they are made, and then copied, and
// the night is the large one
pub fn fresh_session() -> Session
    ensures { Begun result }
{
    Session {
        line: lines::no_line(),
        desk: draw::empty_desk(),
        night: rehearsal::fresh_night(),
    }
}

// some bytes of the input, line by line, with room for an answer to each. The boxes stand here as one array, and an order takes one of
// them; a box that a step left sound is not tested again, and where a record begins is found once
// Stays: an iterator over the chunk's lines is no plainer, since the last piece may be a part of one, and each begins where the one before says.
fn feed_into(s: Session, chunk: &[u8], post: &mut [u8], t: &mut [u8]) -> Fed
    requires { answer_most * length chunk.now ≤ length t.old }
    ensures { Leaves (chunk_of s post.old chunk.now) t.old result post.new t.new }
{
    let mut boxes = s.night.boxes;
    let mut used = s.night.used;
    let mut desk = s.desk;
    let mut line = s.line;
    let mut known = [false; house::MOST_BOXES];
    let mut places = [0; INDEX_ROOM];
    let mut index = Index::new(&mut places);
    let mut text = 0;
    let mut from = 0;
    while from < chunk.len() {
        let a = turn::ask(line, desk, used, chunk, from, post, &mut index);
        line = a.line;
        from = a.next;
        if let Some(l) = a.ended {
            let at = l.place.at;
            let r = turn::turn(
                desk,
                known[at],
                used,
                &mut boxes[at],
                l.typed,
                l.place.start,
                post,
                &mut t[text..],
            );
            desk = r.desk;
            used = r.used;
            text += r.text;
            known[at] = r.known;
        }
    }
    Fed {
        session: Session {
            night: Night { boxes, used },
            desk,
            line,
        },
        used: text,
    }
}

// the first n bytes of a chunk; all of it where it has no n
pub fn feed_chunk(
    s: Session,
    chunk: &[u8; crate::CHUNK],
    n: usize,
    post: &mut [u8],
    t: &mut [u8; crate::CHUNK_ROOM],
) -> Fed
    ensures { ChunkFed s chunk.now n post.old t.old result post.new t.new }
{
    let k = post::within(n, crate::CHUNK);
    feed_into(s, &chunk[..k], post, t)
}

// the end of the input ends a line that has begun
pub fn last_line(s: Session, post: &mut [u8], t: &mut [u8; crate::ANSWER_ROOM]) -> Fed
    ensures { LastFed s post.old t.old result post.new t.new }
{
    if s.line.len == 0 {
        return Fed {
            session: s,
            used: 0,
        };
    }
    feed_into(s, b"\n", post, t)
}
