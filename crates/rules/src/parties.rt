// Who may send to whom, and the ballots of an ACCEPT_ACK.
// What each function means stands in specs/Rules.antt of records.
ghost use Rattle.std.specs.Prelude.{◌≡◌, get_or};
ghost use Rattle.house.specs.Pairs.{no_ballot};
ghost use Rattle.records.specs.Rules.{boxes, neighbours, others, ballot_for, ballots_for};

use house::{Ballot, BoxNo, District, Plan};

#[tactic(auto, unfolding(records::specs::Rules::boxes))]
pub fn both_boxes(plan: Plan, from: BoxNo, to: BoxNo) -> bool
    ensures { result ≡ boxes plan from to }
{
    house::is_box(plan, from) && house::is_box(plan, to)
}

// two boxes of one district
#[tactic(auto, unfolding(records::specs::Rules::neighbours))]
pub fn are_neighbours(plan: Plan, from: BoxNo, to: BoxNo) -> bool
    ensures { result ≡ neighbours plan from to }
{
    both_boxes(plan, from, to) && house::same_home(plan, from, to)
}

// two different boxes of one district
#[tactic(auto, unfolding(records::specs::Rules::others))]
pub fn are_others(plan: Plan, from: BoxNo, to: BoxNo) -> bool
    ensures { result ≡ others plan from to }
{
    are_neighbours(plan, from, to) && from != to
}

// the ballot of a district, none behind the last
pub fn ballot_at(ballots: [Ballot; house::DISTRICTS], d: District) -> Ballot
    ensures { result ≡ get_or ballots d.0 no_ballot }
{
    ballots
        .get(d.0 as usize)
        .copied()
        .unwrap_or(house::no_ballot())
}

// of a box of district d if the job names it, none if not
#[tactic(auto, unfolding(records::specs::Rules::ballot_for, laws::specs::Choice::pick, house::specs::Pairs::is_no_ballot, house::specs::Pairs::same_ballot))]
fn ballot_for(plan: Plan, job: u8, ballots: [Ballot; house::DISTRICTS], d: District) -> bool
    ensures { result ≡ ballot_for plan job ballots d.0 }
{
    let b = ballot_at(ballots, d);
    if house::named(plan, job, d) {
        house::ballot_in(plan, d, b)
    } else {
        b == house::no_ballot()
    }
}

pub fn ballots_for(plan: Plan, job: u8, ballots: [Ballot; house::DISTRICTS], n: u8) -> bool
    ensures { result ≡ ballots_for plan job ballots n }
{
    (0..n).all(|d| ballot_for(plan, job, ballots, District(d)))
}
