// The rules of each kind of record, one function a kind, and all of them.
// What each function means stands in specs/Rules.antt of records.
#![tactic(auto, unfolding(records::specs::Rules::rules, records::specs::Rules::valid))]

ghost use Rattle.std.specs.Prelude.{◌≡◌};
ghost use Rattle.records.specs.Rec.{multicast, accept, accept_ack, deliver, newleader, newleader_ack, new_state, newstate_ack, meaning};
ghost use Rattle.records.specs.Rules.{rules, valid};

use crate::{parties, rows, spare};
use house::{Ballot, BoxNo, Plan, Row, Stamp};
use records::Record;

fn multicast_obeys(plan: Plan, from: BoxNo, to: BoxNo, job: u8) -> bool
    ensures { result ≡ rules plan (multicast from to job) }
{
    (house::is_box(plan, from) || house::is_office(plan, from))
        && house::is_box(plan, to)
        && house::is_job(plan, job)
}

fn accept_obeys(plan: Plan, from: BoxNo, to: BoxNo, job: u8, b: Ballot, s: Stamp) -> bool
    ensures { result ≡ rules plan (accept from to job (record { ballot = b; stamp = s })) }
{
    let home = house::home_of(plan, from);
    parties::both_boxes(plan, from, to)
        && house::is_job(plan, job)
        && house::ballot_of(from, b)
        && house::stamp_of(home, s)
        && house::named(plan, job, home)
}

fn accept_ack_obeys(
    plan: Plan,
    from: BoxNo,
    to: BoxNo,
    job: u8,
    ballots: [Ballot; house::DISTRICTS],
) -> bool
    ensures { result ≡ rules plan (accept_ack from to job ballots) }
{
    let home = house::home_of(plan, from);
    parties::both_boxes(plan, from, to)
        && house::is_job(plan, job)
        && house::named(plan, job, home)
        && parties::ballots_for(plan, job, ballots, plan.districts)
}

fn deliver_obeys(
    plan: Plan,
    from: BoxNo,
    to: BoxNo,
    job: u8,
    b: Ballot,
    local: Stamp,
    global: Stamp,
) -> bool
    ensures { result ≡ rules plan (deliver from to job (record { ballot = b; local = local; global = global })) }
{
    let home = house::home_of(plan, from);
    parties::are_neighbours(plan, from, to)
        && house::is_job(plan, job)
        && house::ballot_of(from, b)
        && rows::both_stamps(plan, job, home, local, global)
}

fn newleader_obeys(plan: Plan, from: BoxNo, to: BoxNo, b: Ballot) -> bool
    ensures { result ≡ rules plan (newleader from to b) }
{
    parties::are_neighbours(plan, from, to) && house::ballot_of(from, b)
}

#[tactic(auto, unfolding(records::specs::Rules::rules, house::specs::Pairs::ballot_lt))]
pub fn newleader_ack_obeys(
    plan: Plan,
    from: BoxNo,
    to: BoxNo,
    b: Ballot,
    cballot: Ballot,
    clock: Stamp,
    table: [Row; house::JOBS],
) -> bool
    ensures { result ≡ rules plan (newleader_ack from to (record { ballot = b; cballot = cballot; clock = clock; table = table })) }
{
    let home = house::home_of(plan, from);
    parties::are_neighbours(plan, from, to)
        && house::ballot_of(to, b)
        && cballot < b
        && house::none_or_in(plan, home, cballot)
        && rows::clock_of(home, clock)
        && rows::rows_sound(plan, home, table, plan.jobs)
}

fn new_state_obeys(
    plan: Plan,
    from: BoxNo,
    to: BoxNo,
    b: Ballot,
    clock: Stamp,
    table: [Row; house::JOBS],
) -> bool
    ensures { result ≡ rules plan (new_state from to (record { ballot = b; clock = clock; table = table })) }
{
    let home = house::home_of(plan, from);
    parties::are_others(plan, from, to)
        && house::ballot_of(from, b)
        && rows::clock_of(home, clock)
        && rows::rows_sound(plan, home, table, plan.jobs)
        && rows::none_proposed(table, plan.jobs)
}

fn newstate_ack_obeys(plan: Plan, from: BoxNo, to: BoxNo, b: Ballot) -> bool
    ensures { result ≡ rules plan (newstate_ack from to b) }
{
    parties::are_others(plan, from, to) && house::ballot_of(to, b)
}

// the rules of the record's kind
#[tactic(auto, unfolding(records::specs::Rules::rules, records::specs::Rec::meaning, laws::specs::Choice::pick))]
fn obeys(plan: Plan, r: Record) -> bool
    ensures { result ≡ rules plan (meaning r) }
{
    let (from, to, b, s) = (r.from, r.to, r.ballots[0], r.stamps[0]);
    match r.kind {
        records::MULTICAST => multicast_obeys(plan, from, to, r.job),
        records::ACCEPT => accept_obeys(plan, from, to, r.job, b, s),
        records::ACCEPT_ACK => accept_ack_obeys(plan, from, to, r.job, r.ballots),
        records::DELIVER => deliver_obeys(plan, from, to, r.job, b, s, r.stamps[1]),
        records::NEWLEADER => newleader_obeys(plan, from, to, b),
        records::NEWLEADER_ACK => newleader_ack_obeys(plan, from, to, b, r.ballots[1], s, r.table),
        records::NEW_STATE => new_state_obeys(plan, from, to, b, s, r.table),
        records::NEWSTATE_ACK => newstate_ack_obeys(plan, from, to, b),
        _ => false,
    }
}

// a known kind, nothing in the places that it has no use for, and its rules
pub fn is_valid(plan: Plan, r: Record) -> bool
    ensures { result ≡ valid plan r }
{
    records::is_known(r.kind) && spare::is_spare(plan, r) && obeys(plan, r)
}
