// The places of a record's struct that its kind has no use for are none.
// What each function means stands in specs/Rules.antt of records.
ghost use Rattle.std.specs.Prelude.{◌≡◌, ◌||◌, ltb, length, get_or};
ghost use Rattle.laws.specs.Fold.{all_below};
ghost use Rattle.records.specs.Rules.{spare_rows, spare};

use house::{Plan, Row};
use records::{Part, Record};

// no part of a section from place n on
fn is_none_from<T: Part>(parts: &[T], n: u8) -> bool
    ensures { result ≡ all_below (λ i. ltb i n || T.is_nothing (get_or parts.now i T.nothing)) (length parts.now) }
{
    parts.iter().skip(n as usize).all(|part| part.is_none())
}

#[tactic(auto, unfolding(records::specs::Rules::spare_rows))]
pub fn spare_rows(table: [Row; house::JOBS], n: u8) -> bool
    ensures { result ≡ spare_rows table n }
{
    is_none_from(&table, n)
}

// the places behind each section's count, and the job of a kind that has none
#[tactic(auto, unfolding(records::specs::Rules::spare, records::specs::Rules::spare_ballots, records::specs::Rules::spare_stamps))]
pub fn is_spare(plan: Plan, rec: Record) -> bool
    ensures { result ≡ spare plan rec }
{
    (records::has_job(rec.kind) || rec.job == house::NO_JOB)
        && is_none_from(&rec.ballots, records::ballots_in(plan, rec.kind))
        && is_none_from(&rec.stamps, records::stamps_in(rec.kind))
        && spare_rows(rec.table, records::rows_in(plan, rec.kind))
}
