// The plan as it is typed, line by line.
// The definitions stand in specs/Desk.antt.
ghost use Rattle.std.specs.Prelude.{◌≡◌};
ghost use Rattle.session.specs.Desk.{capped, empty_desk, districts_here, job_here, with_districts, with_job, fixed_desk};

use crate::Desk;
use house::Plan;

// a typed number as a byte of the plan
#[tactic(auto, unfolding(crate::specs::Desk::capped, laws::specs::Choice::pick))]
fn as_byte(n: u32) -> u8
    ensures { result ≡ capped n }
{
    n.min(255) as u8
}

// nothing is drawn
pub fn empty_desk() -> Desk
    ensures { result ≡ empty_desk }
{
    Desk {
        plan: Plan {
            districts: 0,
            jobs: 0,
            masks: [0; house::JOBS],
        },
        drawn: false,
        fixed: false,
    }
}

// a `districts` line is in place
#[tactic(auto, unfolding(crate::specs::Desk::districts_here))]
pub fn districts_here(desk: Desk) -> bool
    ensures { result ≡ districts_here desk }
{
    !(desk.drawn || desk.fixed)
}

// a `job` line is in place
#[tactic(auto, unfolding(crate::specs::Desk::job_here))]
pub fn job_here(desk: Desk) -> bool
    ensures { result ≡ job_here desk }
{
    desk.drawn && !desk.fixed
}

// after a `districts` line in place
pub fn with_districts(desk: Desk, g: u32) -> Desk
    ensures { result ≡ with_districts desk g }
{
    let plan = Plan {
        districts: as_byte(g),
        ..desk.plan
    };
    Desk {
        plan,
        drawn: true,
        ..desk
    }
}

// after a `job` line in place
#[tactic(auto, unfolding(crate::specs::Desk::one_job, laws::specs::Choice::pick))]
pub fn with_job(desk: Desk, mask: u32) -> Desk
    ensures { result ≡ with_job desk mask }
{
    let mut plan = desk.plan;
    if house::MOST_JOBS <= plan.jobs {
        plan.jobs = house::MOST_JOBS + 1;
    } else {
        plan.masks[plan.jobs as usize] = as_byte(mask);
        plan.jobs += 1;
    }
    Desk { plan, ..desk }
}

// after an order: the plan stays as it is
pub fn fix(desk: Desk) -> Desk
    ensures { result ≡ fixed_desk desk }
{
    Desk {
        fixed: true,
        ..desk
    }
}
