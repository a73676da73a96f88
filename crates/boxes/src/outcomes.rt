// What a step comes to, as the code answers it: done, or refused.
// The definition, result_of, stands in specs/Out.antt.
ghost use Rattle.std.specs.Prelude.{◌≡◌};
ghost use Rattle.records.specs.Answers.{done};
ghost use Rattle.boxes.specs.Out.{refusal};

use crate::{BoxState, Outcome};
use records::{Answer, Refusal};

// what the tests of a kind or an order come to where none refuses
pub fn all_passed() -> Answer
    ensures { result ≡ done }
{
    Ok(())
}

// done: the new box, what was written, and the job delivered
pub fn done(state: BoxState, used: usize, records: u16, delivery: Option<u8>) -> Outcome
    ensures { result ≡ record { state = state; used = used; records = records; answer = done; delivery = delivery } }
{
    Outcome {
        state,
        used,
        records,
        answer: Ok(()),
        delivery,
    }
}

// refused: the same box, 0 bytes, no delivery
pub fn refused(state: BoxState, why: Refusal) -> Outcome
    ensures { result ≡ refusal state why }
{
    Outcome {
        state,
        used: 0,
        records: 0,
        answer: Err(why),
        delivery: None,
    }
}
