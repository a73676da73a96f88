// A fresh box, and a box after a cut.
// Both are defined in specs/Box.antt and specs/Cut.antt.
ghost use Rattle.std.specs.Prelude.{◌≡◌};
ghost use Rattle.boxes.specs.Box.{no_vote, no_listed, fresh_volatile, fresh};
ghost use Rattle.boxes.specs.Cut.{cut};

use crate::{BoxState, Core, Listed, Status, Volatile, Vote};
use house::BoxNo;

pub fn no_vote() -> Vote
    ensures { result ≡ no_vote }
{
    Vote {
        held: false,
        voter: BoxNo(0),
        cballot: house::no_ballot(),
        clock: 0,
        table: [house::no_row(); house::JOBS],
    }
}

// everything that a cut forgets is none
#[tactic(auto, unfolding(crate::specs::Box::fresh_volatile))]
fn fresh_volatile() -> Volatile
    ensures { result ≡ fresh_volatile }
{
    Volatile {
        kept_ballots: [house::no_ballot(); house::PAIRS],
        kept_stamps: [house::no_stamp(); house::PAIRS],
        marks: [house::no_marks(); house::JOBS],
        vote: no_vote(),
    }
}

// a place behind the delivered list
pub fn no_listed() -> Listed
    ensures { result ≡ no_listed }
{
    Listed {
        job: 0,
        stamp: house::no_stamp(),
    }
}

// follower, clock 0, everything else none
#[tactic(auto, unfolding(crate::specs::Box::fresh))]
pub fn fresh_box(own: BoxNo) -> BoxState
    ensures { result ≡ fresh own }
{
    let core = Core {
        own,
        status: Status::Follower,
        clock: 0,
        ballot: house::no_ballot(),
        cballot: house::no_ballot(),
        table: [house::no_row(); house::JOBS],
        sent: [false; house::JOBS],
        count: 0,
        list: [no_listed(); house::JOBS],
    };
    BoxState {
        core,
        volatile: fresh_volatile(),
    }
}

// a cut forgets the volatile part only
#[tactic(auto, unfolding(crate::specs::Cut::cut))]
pub fn cut_box(x: BoxState) -> BoxState
    ensures { result ≡ cut x }
{
    BoxState {
        volatile: fresh_volatile(),
        ..x
    }
}
