// The votes of a quorum merged.
// The definition, merged, stands in specs/Merge.antt of boxes.
ghost use Rattle.std.specs.Prelude.{◌≡◌, true, [], ◌∷◌, ℕ, ◌<◌};
ghost use Rattle.house.specs.Limits.{most_jobs};
ghost use Rattle.boxes.specs.NewleaderAck.{vote_of, votes_with};
ghost use Rattle.boxes.specs.Merge.{vote_row, merged_row, merged_table, merged};

use boxes::{BoxState, Status, Vote};
use house::{Ballot, BoxNo, Plan, Row};
use records::Ballotpaper;
use std::array;

// a vote as it is kept
#[tactic(auto, unfolding(boxes::specs::NewleaderAck::vote_of))]
pub fn vote_of(from: BoxNo, y: Ballotpaper) -> Vote
    ensures { result ≡ vote_of from y }
{
    let table = y.table;
    Vote {
        held: true,
        voter: from,
        cballot: y.cballot,
        clock: y.clock.time,
        table,
    }
}

// the kept vote and the new one, by rising box number
#[tactic(auto, unfolding(boxes::specs::NewleaderAck::votes_with, laws::specs::Choice::pick))]
fn by_box(old: Vote, new: Vote) -> (Vote, Vote)
    requires { old.held ≡ true }
    ensures { votes_with old new ≡ result.0 ∷ result.1 ∷ [] }
{
    if old.voter < new.voter {
        return (old, new);
    }
    (new, old)
}

// committed at a voter, else accepted at a voter of highest cballot, else start: two votes' cballots and their rows of a job
fn row_of_two(low: Ballot, a: Row, high: Ballot, b: Row) -> Row
    ensures { (u v : Vote) (j : ℕ) → u.cballot ≡ low → vote_row u j ≡ a → v.cballot ≡ high → vote_row v j ≡ b → result ≡ merged_row (u ∷ v ∷ []) j }
{
    let top = low.max(high);
    let at_low = (low == top && a.phase == house::ACCEPTED).then_some(a);
    let at_high = (high == top && b.phase == house::ACCEPTED).then_some(b);
    (a.phase == house::COMMITTED)
        .then_some(a)
        .or((b.phase == house::COMMITTED).then_some(b))
        .or(at_low)
        .or(at_high)
        .unwrap_or(house::no_row())
}

// the merged row of one job
#[tactic(auto, unfolding(boxes::specs::Merge::vote_row))]
fn merged_row(low: &Vote, high: &Vote, j: usize) -> Row
    requires { j < most_jobs }
    ensures { result ≡ merged_row (low.now ∷ high.now ∷ []) j }
{
    row_of_two(low.cballot, low.table[j], high.cballot, high.table[j])
}

// the rows of the plan's jobs merged, the others at their start
fn merged_table(low: &Vote, high: &Vote, jobs: u8) -> [Row; house::JOBS]
    ensures { result ≡ merged_table (low.now ∷ high.now ∷ []) jobs }
{
    array::from_fn(|j| {
        if j < jobs as usize {
            merged_row(low, high, j)
        } else {
            house::no_row()
        }
    })
}

// table merged, clock the larger, sent flags cleared, cballot set, vote dropped
#[tactic(auto, using(crate::proofs::laws::Votes::clock_of_two), unfolding(boxes::specs::Merge::merged))]
pub fn merge(plan: Plan, x: &mut BoxState, new: Vote)
    requires { x.old.volatile.vote.held ≡ true }
    ensures { x.new ≡ merged plan x.old (votes_with x.old.volatile.vote new) }
{
    let (low, high) = by_box(x.volatile.vote, new);
    let clock = boxes::raise(low.clock, high.clock);
    boxes::put_table(x, clock, merged_table(&low, &high, plan.jobs));
    boxes::put_sent(x, [false; house::JOBS]);
    boxes::put_mode(x, Status::Recovering, x.core.ballot, x.core.ballot);
    boxes::put_vote(x, boxes::no_vote());
}
