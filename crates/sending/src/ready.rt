// Which job is ready to be handed out next.
// The definitions stand in specs/Ready.antt of boxes.
ghost use Rattle.std.specs.Prelude.{◌≡◌, ◌||◌, ◌<◌, ◌≤◌, eqb, IfSome};
ghost use Rattle.std.specs.Option.{unwrap_or};
ghost use Rattle.house.specs.Limits.{no_job, most_jobs};
ghost use Rattle.house.specs.declared.Plan.{Plan};
ghost use Rattle.boxes.specs.Ready.{is_open, open_above, next_ready};
ghost use Rattle.boxes.specs.declared.BoxState.{BoxState};
ghost use Rattle.sending.specs.Turns.{goes_before};

use boxes::BoxState;
use house::{Row, Stamp};

// proposed or accepted
fn row_open(row: Row) -> bool
    ensures { result ≡ eqb row.phase 1 || eqb row.phase 2 }
{
    matches!(row.phase, house::PROPOSED | house::ACCEPTED)
}

#[tactic(auto, unfolding(boxes::specs::Ready::is_open))]
pub fn is_open(x: &BoxState, job: u8) -> bool
    ensures { result ≡ is_open x.now job }
{
    row_open(boxes::row_at(x, job))
}

// every open job has a larger local stamp than this one
fn open_above(table: [Row; house::JOBS], n: usize, s: Stamp) -> bool
    requires { n ≤ most_jobs }
    ensures { (P : Plan) (x : BoxState) → P.jobs ≡ n → x.core.table ≡ table → result ≡ open_above P x s }
{
    table[..n]
        .iter()
        .all(|row| !row_open(*row) || s < row.local)
}

// a row is before that of the best job so far, by global stamp
#[tactic(auto, unfolding(house::specs::Pairs::stamp_lt))]
fn goes_before(table: &[Row; house::JOBS], best: Option<u8>, row: &Row) -> bool
    requires { IfSome best (λ j. j < most_jobs) }
    ensures { result ≡ goes_before table.now best row.now }
{
    match best {
        Some(j) => row.global < table[j as usize].global,
        None => true,
    }
}

// the next ready job; the open jobs are gone through only for one that waits and is before the best so far
pub fn next_ready(table: [Row; house::JOBS], sent: [bool; house::JOBS], n: usize) -> Option<u8>
    requires { n ≤ most_jobs }
    ensures job { (P : Plan) (x : BoxState) → P.jobs ≡ n → x.core.table ≡ table → x.core.sent ≡ sent → unwrap_or result no_job ≡ next_ready P x }
    ensures low { IfSome result (λ j. j < n) }
{
    let mut best = None;
    for (j, row) in table[..n].iter().enumerate() {
        if row.phase == house::COMMITTED
            && !sent[j]
            && goes_before(&table, best, row)
            && open_above(table, n, row.global)
        {
            best = Some(j as u8);
        }
    }
    best
}
