// Whether a plan is sound: counts, masks, size and quorum.
// The definition, plan_sound, stands in specs/Plan.antt.
ghost use Rattle.std.specs.Prelude.{◌≡◌, ◌≤◌};
ghost use Rattle.house.specs.Limits.{most_districts, most_jobs};
ghost use Rattle.house.specs.Plan.{mask_sound, counts_sound, masks_sound, plan_sound};

use crate::Plan;

#[tactic(auto, unfolding(crate::specs::Plan::mask_sound))]
fn mask_sound(districts: u8, mask: u8) -> bool
    requires { districts ≤ most_districts }
    ensures { result ≡ mask_sound districts mask }
{
    (1..(1u8 << districts)).contains(&mask)
}

#[tactic(auto, unfolding(crate::specs::Plan::counts_sound))]
fn counts_sound(plan: Plan) -> bool
    ensures { result ≡ counts_sound plan }
{
    (1..=crate::MOST_DISTRICTS).contains(&plan.districts)
        && (1..=crate::MOST_JOBS).contains(&plan.jobs)
}

fn masks_sound(plan: Plan, n: u8) -> bool
    requires { (n ≤ most_jobs) × (plan.districts ≤ most_districts) }
    ensures { result ≡ masks_sound plan n }
{
    plan.masks[..n as usize]
        .iter()
        .all(|mask| mask_sound(plan.districts, *mask))
}

#[tactic(auto, unfolding(crate::specs::Plan::plan_sound, crate::specs::Plan::counts_sound))]
pub fn plan_sound(plan: Plan) -> bool
    ensures { result ≡ plan_sound plan }
{
    counts_sound(plan) && masks_sound(plan, plan.jobs)
}
