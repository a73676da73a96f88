// One line as it is typed: its words and numbers, and the plan line or the order that it is.
// The promises stand in specs/Reads.antt.
#![tactic(auto)]

mod line;
mod words;

use house::Order;
pub use line::{no_line, order_held, order_of_line, push};

// What a line says: a plan line, an order, or a line that cannot be read.
// Stays: an Option of the other three is no plainer, since a line that cannot be read is no missing value: it has an answer of its own, `no 3`, given in the
// same match as the others' (session's hear), and a word and numbers beside theirs (order_word and order_numbers, which LineRead is made of).
#[derive(Clone, Copy)]
pub enum Typed {
    Districts(u32),
    Job(u32),
    Given(Order),
    Unreadable,
}

// What has come of a line: how many bytes, where 32 stands for more than 31, and the bytes.
// Stays: a buffer with its length beside it, since the project's rule of fixed memory allows no Vec; and free functions in place of methods, since
// docs/FACE.md names lines::no_line, push and order_held as what a user calls.
#[derive(Clone, Copy)]
pub struct LineState {
    pub len: usize,
    pub bytes: [u8; 32],
}
