// The volatile part of a sound box: kept ACCEPTs, marks and votes.
// What each function means stands in specs/Sound.antt of boxes.
ghost use Rattle.std.specs.Prelude.{◌≡◌, ◌&&◌};
ghost use Rattle.house.specs.Pairs.{is_no_ballot, is_no_stamp};
ghost use Rattle.boxes.specs.Sound.{all_kept_sound, all_marks_sound, unvoted, vote_sound};
ghost use Rattle.soundness.specs.Pairs.{pair_sound, unnamed_below, job_marks_sound};

use boxes::{BoxState, Core, Vote};
use house::{Ballot, BoxNo, District, Plan, Stamp};

// no ACCEPT is kept here
#[tactic(auto, unfolding(house::specs::Pairs::is_no_ballot, house::specs::Pairs::is_no_stamp, house::specs::Pairs::same_ballot, house::specs::Pairs::same_stamp))]
fn is_unkept(b: Ballot, s: Stamp) -> bool
    ensures { result ≡ (is_no_ballot b && is_no_stamp s) }
{
    b == house::no_ballot() && s == house::no_stamp()
}

// an ACCEPT kept for a named district, or none: most places have none, and nothing more is asked of them
#[tactic(auto, unfolding(crate::specs::Pairs::pair_sound))]
fn pair_sound(plan: Plan, job: u8, d: District, b: Ballot, s: Stamp) -> bool
    ensures { result ≡ pair_sound plan job d b s }
{
    is_unkept(b, s)
        || (house::named(plan, job, d) && house::ballot_in(plan, d, b) && house::stamp_of(d, s))
}

pub fn kept_sound(plan: Plan, x: &BoxState) -> bool
    ensures { result ≡ all_kept_sound plan x.now }
{
    (0..house::PAIRS).all(|at| {
        let job = (at / house::DISTRICTS) as u8;
        let d = District((at % house::DISTRICTS) as u8);
        pair_sound(
            plan,
            job,
            d,
            x.volatile.kept_ballots[at],
            x.volatile.kept_stamps[at],
        )
    })
}

// no box of a district that the job does not name is marked
fn unnamed_below(plan: Plan, job: u8, marks: u32) -> bool
    ensures { result ≡ unnamed_below plan job marks plan.districts }
{
    (0..plan.districts).all(|d| {
        house::named(plan, job, District(d)) || house::marks_in(plan, marks, District(d)) == 0
    })
}

#[tactic(auto, using(crate::proofs::laws::Pairs::unmarked), unfolding(crate::specs::Pairs::job_marks_sound))]
fn job_marks_sound(plan: Plan, job: u8, marks: u32) -> bool
    ensures { result ≡ job_marks_sound plan job marks }
{
    marks == 0 || (house::only_boxes(plan, marks) && unnamed_below(plan, job, marks))
}

pub fn marks_sound(plan: Plan, x: &BoxState) -> bool
    ensures { result ≡ all_marks_sound plan x.now }
{
    (0..house::MOST_JOBS)
        .zip(&x.volatile.marks)
        .all(|(j, marks)| job_marks_sound(plan, j, *marks))
}

#[tactic(auto, unfolding(boxes::specs::Sound::unvoted, house::specs::Pairs::is_no_ballot, house::specs::Pairs::same_ballot))]
fn is_unvoted(vote: Vote) -> bool
    ensures { result ≡ unvoted vote }
{
    vote.voter == BoxNo(0)
        && vote.cballot == house::no_ballot()
        && vote.clock == 0
        && rules::spare_rows(vote.table, 0)
}

// a vote that is held obeys the rules of the kind 6 record that brought it
#[tactic(auto, unfolding(boxes::specs::Sound::vote_sound, boxes::specs::Sound::held_sound, boxes::specs::Sound::paper_of, laws::specs::Choice::pick))]
pub fn vote_sound(plan: Plan, x: &BoxState) -> bool
    ensures { result ≡ vote_sound plan x.now }
{
    let vote = x.volatile.vote;
    if !vote.held {
        return is_unvoted(vote);
    }
    let Core { own, ballot, .. } = x.core;
    let Vote {
        voter,
        cballot,
        table,
        ..
    } = vote;
    let clock = Stamp {
        time: vote.clock,
        district: house::home_of(plan, voter),
    };
    rules::newleader_ack_obeys(plan, voter, own, ballot, cballot, clock, table)
        && rules::spare_rows(table, plan.jobs)
}
