// The records of a step as structs, one function a kind.
// What each holds stands with its kind in specs/ of boxes; of what its kind has no use for it holds none.
ghost use Rattle.std.specs.Prelude.{◌≡◌, ◌<◌};
ghost use Rattle.house.specs.Limits.{most_number};
ghost use Rattle.records.specs.Rec.{multicast, accept, accept_ack, deliver, carried, one_ballot, newleader, new_state, newstate_ack};
ghost use Rattle.boxes.specs.Box.{own_of, row_at};
ghost use Rattle.boxes.specs.Accept.{kept_for, kept_vector};
ghost use Rattle.boxes.specs.Newleader.{clock_stamp, vote_for};
ghost use Rattle.boxes.specs.Stand.{next_ballot};

use boxes::{BoxState, Core};
use house::{Ballot, BoxNo, District, Plan, Row, Stamp};
use records::Record;

// a ballot before three that the kind has no use for
fn one_ballot(b: Ballot) -> [Ballot; house::DISTRICTS]
    ensures { result ≡ one_ballot b }
{
    let none = house::no_ballot();
    [b, none, none, none]
}

#[tactic(auto, unfolding(records::specs::Rec::carried))]
pub fn multicast_record(from: BoxNo, to: BoxNo, job: u8) -> Record
    ensures { result ≡ carried (multicast from to job) }
{
    Record {
        kind: records::MULTICAST,
        from,
        to,
        job,
        ..records::no_record()
    }
}

// the stored stamp
#[tactic(auto, unfolding(records::specs::Rec::carried))]
pub fn accept_record(x: &BoxState, to: BoxNo, job: u8) -> Record
    ensures { result ≡ carried (accept (own_of x.now) to job (record { ballot = x.now.core.cballot; stamp = (row_at x.now job).local })) }
{
    Record {
        kind: records::ACCEPT,
        from: x.core.own,
        to,
        job,
        ballots: one_ballot(x.core.cballot),
        stamps: [boxes::row_at(x, job).local, house::no_stamp()],
        ..records::no_record()
    }
}

// the ballot kept for a named district, none for another
#[tactic(auto, unfolding(boxes::specs::Accept::kept_for, laws::specs::Choice::pick))]
fn kept_for(plan: Plan, x: &BoxState, job: u8, d: District) -> Ballot
    ensures { result ≡ kept_for plan x.now job d.0 }
{
    if house::named(plan, job, d) {
        return boxes::kept_ballot(x, job, d);
    }
    house::no_ballot()
}

fn kept_vector(plan: Plan, x: &BoxState, job: u8) -> [Ballot; house::DISTRICTS]
    ensures { result ≡ kept_vector plan x.now job }
{
    std::array::from_fn(|d| kept_for(plan, x, job, District(d as u8)))
}

#[tactic(auto, unfolding(records::specs::Rec::carried))]
pub fn ack_record(plan: Plan, x: &BoxState, to: BoxNo, job: u8) -> Record
    ensures { result ≡ carried (accept_ack (own_of x.now) to job (kept_vector plan x.now job)) }
{
    Record {
        kind: records::ACCEPT_ACK,
        from: x.core.own,
        to,
        job,
        ballots: kept_vector(plan, x, job),
        ..records::no_record()
    }
}

#[tactic(auto, unfolding(records::specs::Rec::carried))]
pub fn deliver_record(from: BoxNo, to: BoxNo, job: u8, b: Ballot, row: Row) -> Record
    ensures { result ≡ carried (deliver from to job (record { ballot = b; local = row.local; global = row.global })) }
{
    Record {
        kind: records::DELIVER,
        from,
        to,
        job,
        ballots: one_ballot(b),
        stamps: [row.local, row.global],
        ..records::no_record()
    }
}

// the own clock as a stamp of the own district
#[tactic(auto, unfolding(boxes::specs::Newleader::clock_stamp))]
fn clock_stamp(plan: Plan, x: &BoxState) -> Stamp
    ensures { result ≡ clock_stamp plan x.now }
{
    Stamp {
        time: x.core.clock,
        district: house::home_of(plan, x.core.own),
    }
}

// 6 as stored
#[tactic(auto, unfolding(records::specs::Rec::carried, boxes::specs::Newleader::vote_for))]
pub fn vote_record(plan: Plan, x: &BoxState, to: BoxNo, b: Ballot) -> Record
    ensures { result ≡ carried (vote_for plan x.now to b) }
{
    let Core {
        own,
        cballot,
        table,
        ..
    } = x.core;
    let none = house::no_ballot();
    Record {
        kind: records::NEWLEADER_ACK,
        from: own,
        to,
        ballots: [b, cballot, none, none],
        stamps: [clock_stamp(plan, x), house::no_stamp()],
        table,
        ..records::no_record()
    }
}

// 7 NEW_STATE as the leader to be sends it
#[tactic(auto, unfolding(records::specs::Rec::carried))]
pub fn new_state_record(plan: Plan, x: &BoxState, to: BoxNo) -> Record
    ensures { result ≡ carried (new_state (own_of x.now) to (record { ballot = x.now.core.ballot; clock = clock_stamp plan x.now; table = x.now.core.table })) }
{
    let Core {
        own,
        ballot,
        table,
        ..
    } = x.core;
    Record {
        kind: records::NEW_STATE,
        from: own,
        to,
        ballots: one_ballot(ballot),
        stamps: [clock_stamp(plan, x), house::no_stamp()],
        table,
        ..records::no_record()
    }
}

// 8 NEWSTATE_ACK as a follower sends it
#[tactic(auto, unfolding(records::specs::Rec::carried))]
pub fn newstate_ack_record(x: &BoxState, to: BoxNo, b: Ballot) -> Record
    ensures { result ≡ carried (newstate_ack (own_of x.now) to b) }
{
    Record {
        kind: records::NEWSTATE_ACK,
        from: x.core.own,
        to,
        ballots: one_ballot(b),
        ..records::no_record()
    }
}

// 5 NEWLEADER with (ballot number + 1, own)
#[tactic(auto, unfolding(records::specs::Rec::carried, boxes::specs::Stand::next_ballot))]
pub fn stand_record(x: &BoxState, to: BoxNo) -> Record
    requires { x.now.core.ballot.number < most_number }
    ensures { result ≡ carried (newleader (own_of x.now) to (next_ballot x.now)) }
{
    let own = x.core.own;
    let next = Ballot {
        number: x.core.ballot.number + 1,
        owner: own,
    };
    Record {
        kind: records::NEWLEADER,
        from: own,
        to,
        ballots: one_ballot(next),
        ..records::no_record()
    }
}
