// What a line says, and a line that comes byte by byte.
// The promises stand in specs/Reads.antt.
ghost use Rattle.std.specs.Prelude.{[], ◌∷◌, ◌≡◌};
ghost use Rattle.lines.specs.Parts.{words};
ghost use Rattle.lines.specs.Orders.{order_of_words};
ghost use Rattle.lines.specs.Reads.{LineRead, NothingHeld, ByteHeld, HeldRead};

use crate::{LineState, Typed, words};
use house::Order;

// The most bytes that a readable line may have.
const LONGEST: usize = 31;

// What two words say: a word and one number.
// Stays: a chain of ifs, since a match on byte strings tells its proof only how long the word is, and the proof did not close.
#[tactic(auto, unfolding(crate::specs::Orders::order_of_words, crate::specs::Orders::one_number, laws::specs::Choice::pick))]
fn two_words(word: &[u8], number: &[u8]) -> Typed
    ensures { result ≡ order_of_words (word.now ∷ number.now ∷ []) }
{
    let Some(n) = words::number(number) else {
        return Typed::Unreadable;
    };
    if words::is_word(word, b"districts") {
        Typed::Districts(n)
    } else if words::is_word(word, b"job") {
        Typed::Job(n)
    } else if words::is_word(word, b"post") {
        Typed::Given(Order::Post(n))
    } else if words::is_word(word, b"stand") {
        Typed::Given(Order::Stand(n))
    } else if words::is_word(word, b"cut") {
        Typed::Given(Order::Cut(n))
    } else if words::is_word(word, b"carry") {
        Typed::Given(Order::Carry(n))
    } else {
        Typed::Unreadable
    }
}

// What three words say, of which the last may be more: a word and two numbers.
#[tactic(auto, using(crate::proofs::laws::OrderLaws::three_words), unfolding(laws::specs::Choice::pick))]
fn three_words(word: &[u8], first: &[u8], second: &[u8]) -> Typed
    ensures { result ≡ order_of_words (word.now ∷ first.now ∷ words second.now) }
{
    if !words::is_word(word, b"retry") {
        return Typed::Unreadable;
    }
    match (words::number(first), words::number(second)) {
        (Some(b), Some(j)) => Typed::Given(Order::Retry(b, j)),
        _ => Typed::Unreadable,
    }
}

// What a line says.
pub fn order_of_line(line: &[u8]) -> Typed
    ensures { LineRead line.now result }
{
    if LONGEST < line.len() {
        return Typed::Unreadable;
    }
    let Some((word, numbers)) = words::split_word(line) else {
        return Typed::Unreadable;
    };
    match words::split_word(numbers) {
        Some((first, second)) => three_words(word, first, second),
        None => two_words(word, numbers),
    }
}

// The line of which nothing has come.
pub fn no_line() -> LineState
    ensures { NothingHeld result }
{
    LineState {
        len: 0,
        bytes: [0; 32],
    }
}

// The line with one byte more. Of a line over 31 bytes no more is kept.
#[tactic(auto, using(crate::proofs::laws::ReadLaws::byte_held), unfolding(crate::specs::Held::pushed, laws::specs::Choice::pick))]
pub fn push(line: LineState, byte: u8) -> LineState
    ensures { ByteHeld line byte result }
{
    if LONGEST < line.len {
        return line;
    }
    let mut longer = line;
    longer.bytes[line.len] = byte;
    longer.len += 1;
    longer
}

// What the line held says.
pub fn order_held(line: LineState) -> Typed
    ensures { HeldRead line result }
{
    order_of_line(&line.bytes[..line.len.min(line.bytes.len())])
}
