// What a plan says: its boxes, districts, office, jobs, and which districts a job names.
// What each function means stands in specs/Plan.antt.
ghost use Rattle.std.specs.Prelude.{◌≡◌, true, ◌*◌, ◌≤◌};
ghost use Rattle.house.specs.Plan.{size_of, quorum_of, boxes_of, office_of, home_of, is_box, is_office, is_job, same_home, mask_of, names, ballot_in, none_or_in, stamp_named, plan_sound};

use crate::{Ballot, BoxNo, District, Plan, Stamp, pairs};

// how many boxes a district has
#[tactic(auto, unfolding(crate::specs::Plan::size_of))]
pub fn size_of(plan: Plan) -> u8
    ensures { (result ≡ size_of plan) × (1 ≤ result) × (result ≤ 3) }
{
    3
}

#[tactic(auto, unfolding(crate::specs::Plan::quorum_of, laws::specs::Majority::majority))]
pub fn quorum_of(plan: Plan) -> u8
    ensures { (result ≡ quorum_of plan) × (result ≤ 3) }
{
    size_of(plan) / 2 + 1
}

// so many times the size of a district
pub fn times_size(plan: Plan, n: u8) -> u16
    ensures { (result ≡ n * size_of plan) × (result ≤ 765) }
{
    (n as u16) * (size_of(plan) as u16)
}

#[tactic(auto, unfolding(crate::specs::Plan::boxes_of))]
pub fn boxes_of(plan: Plan) -> u16
    ensures { (result ≡ boxes_of plan) × (result ≤ 765) }
{
    times_size(plan, plan.districts)
}

#[tactic(auto, unfolding(crate::specs::Plan::home_of))]
pub fn home_of(plan: Plan, p: BoxNo) -> District
    ensures { result ≡ home_of plan p }
{
    District(p.0 / size_of(plan))
}

#[tactic(auto, unfolding(crate::specs::Plan::is_box))]
pub fn is_box(plan: Plan, p: BoxNo) -> bool
    ensures { result ≡ is_box plan p }
{
    (p.0 as u16) < boxes_of(plan)
}

#[tactic(auto, unfolding(crate::specs::Plan::is_office))]
pub fn is_office(plan: Plan, p: BoxNo) -> bool
    ensures { result ≡ is_office plan p }
{
    (p.0 as u16) == boxes_of(plan)
}

// the office has the number behind the last box
#[tactic(auto, using(crate::proofs::laws::Says::boxes_most), unfolding(crate::specs::Plan::office_of))]
pub fn office_of(plan: Plan) -> BoxNo
    requires { plan_sound plan ≡ true }
    ensures { result ≡ office_of plan }
{
    BoxNo(boxes_of(plan) as u8)
}

#[tactic(auto, unfolding(crate::specs::Plan::is_job))]
pub fn is_job(plan: Plan, job: u8) -> bool
    ensures { result ≡ is_job plan job }
{
    job < plan.jobs
}

#[tactic(auto, unfolding(crate::specs::Plan::same_home))]
pub fn same_home(plan: Plan, p: BoxNo, q: BoxNo) -> bool
    ensures { result ≡ same_home plan p q }
{
    home_of(plan, p) == home_of(plan, q)
}

// the mask of a job, 0 for a number that is no job
#[tactic(auto, unfolding(crate::specs::Plan::mask_of, laws::specs::Choice::pick))]
fn mask_of(plan: Plan, job: u8) -> u8
    ensures { result ≡ mask_of plan job }
{
    if !is_job(plan, job) {
        return 0;
    }
    plan.masks.get(job as usize).copied().unwrap_or(0)
}

// the job names the district
#[tactic(auto, unfolding(crate::specs::Plan::names, laws::specs::Digits::digit))]
pub fn named(plan: Plan, job: u8, d: District) -> bool
    ensures { result ≡ names plan job d }
{
    let mask = mask_of(plan, job);
    d.0 < 8 && (mask >> d.0) % 2 == 1
}

// a real ballot of a box of the district
#[tactic(auto, unfolding(crate::specs::Plan::ballot_in))]
pub fn ballot_in(plan: Plan, d: District, b: Ballot) -> bool
    ensures { result ≡ ballot_in plan d b }
{
    pairs::real_ballot(b) && is_box(plan, b.owner) && home_of(plan, b.owner) == d
}

#[tactic(auto, unfolding(crate::specs::Plan::none_or_in))]
pub fn none_or_in(plan: Plan, d: District, b: Ballot) -> bool
    ensures { result ≡ none_or_in plan d b }
{
    pairs::is_no_ballot(b) || ballot_in(plan, d, b)
}

// a real stamp of a district that the job names
#[tactic(auto, unfolding(crate::specs::Plan::stamp_named))]
pub fn stamp_named(plan: Plan, job: u8, s: Stamp) -> bool
    ensures { result ≡ stamp_named plan job s }
{
    pairs::real_stamp(s) && named(plan, job, s.district)
}
