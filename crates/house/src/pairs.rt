// Stamps and ballots: 'none', the order by first part and then second, the larger, real or not.
// What each function means stands in specs/Pairs.antt.
// Stays: one function for stamps and one for ballots; their contracts name both, and where each body is one comparison a generic one is no plainer.
ghost use Rattle.std.specs.Prelude.{◌≡◌};
ghost use Rattle.house.specs.Pairs.{no_stamp, no_ballot, no_row, stamp_lt, ballot_lt, same_stamp, same_ballot, later_stamp, is_no_stamp, is_no_ballot, time_fits, real_stamp, real_ballot, stamp_of, ballot_of};

use crate::{Ballot, BoxNo, District, Row, Stamp};

pub fn no_stamp() -> Stamp
    ensures { result ≡ no_stamp }
{
    Stamp {
        time: 0,
        district: District(0),
    }
}

pub fn no_ballot() -> Ballot
    ensures { result ≡ no_ballot }
{
    Ballot {
        number: 0,
        owner: BoxNo(0),
    }
}

pub fn no_row() -> Row
    ensures { result ≡ no_row }
{
    Row {
        phase: crate::START,
        local: no_stamp(),
        global: no_stamp(),
    }
}

#[tactic(auto, unfolding(crate::specs::Pairs::stamp_lt))]
pub fn stamp_below(a: Stamp, b: Stamp) -> bool
    ensures { result ≡ stamp_lt a b }
{
    a < b
}

#[tactic(auto, unfolding(crate::specs::Pairs::ballot_lt))]
pub fn ballot_below(a: Ballot, b: Ballot) -> bool
    ensures { result ≡ ballot_lt a b }
{
    a < b
}

#[tactic(auto, unfolding(crate::specs::Pairs::same_stamp))]
pub fn same_stamp(a: Stamp, b: Stamp) -> bool
    ensures { result ≡ same_stamp a b }
{
    a == b
}

#[tactic(auto, unfolding(crate::specs::Pairs::same_ballot))]
pub fn same_ballot(a: Ballot, b: Ballot) -> bool
    ensures { result ≡ same_ballot a b }
{
    a == b
}

// the larger of two stamps, the first if they are the same
#[tactic(auto, unfolding(crate::specs::Pairs::stamp_lt, laws::specs::Choice::pick, laws::specs::Lex::larger))]
pub fn later_stamp(a: Stamp, b: Stamp) -> Stamp
    ensures { result ≡ later_stamp a b }
{
    a.max(b)
}

#[tactic(auto, unfolding(crate::specs::Pairs::is_no_stamp, crate::specs::Pairs::same_stamp))]
pub fn is_no_stamp(s: Stamp) -> bool
    ensures { result ≡ is_no_stamp s }
{
    s == no_stamp()
}

#[tactic(auto, unfolding(crate::specs::Pairs::is_no_ballot, crate::specs::Pairs::same_ballot))]
pub fn is_no_ballot(b: Ballot) -> bool
    ensures { result ≡ is_no_ballot b }
{
    b == no_ballot()
}

#[tactic(auto, unfolding(crate::specs::Pairs::time_fits))]
pub fn time_fits(t: u32) -> bool
    ensures { result ≡ time_fits t }
{
    t <= crate::MOST_TIME
}

#[tactic(auto, unfolding(crate::specs::Pairs::real_stamp, crate::specs::Pairs::time_fits))]
pub fn real_stamp(s: Stamp) -> bool
    ensures { result ≡ real_stamp s }
{
    (1..=crate::MOST_TIME).contains(&s.time)
}

#[tactic(auto, unfolding(crate::specs::Pairs::real_ballot))]
pub fn real_ballot(b: Ballot) -> bool
    ensures { result ≡ real_ballot b }
{
    (1..=crate::MOST_NUMBER).contains(&b.number)
}

// a real stamp of this district
#[tactic(auto, unfolding(crate::specs::Pairs::stamp_of))]
pub fn stamp_of(d: District, s: Stamp) -> bool
    ensures { result ≡ stamp_of d s }
{
    real_stamp(s) && s.district == d
}

// a real ballot of this box
#[tactic(auto, unfolding(crate::specs::Pairs::ballot_of))]
pub fn ballot_of(p: BoxNo, b: Ballot) -> bool
    ensures { result ≡ ballot_of p b }
{
    real_ballot(b) && b.owner == p
}
