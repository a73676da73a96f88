// A sound box, whole.
// The definition, box_sound, stands in specs/Sound.antt of boxes.
ghost use Rattle.std.specs.Prelude.{◌≡◌};
ghost use Rattle.boxes.specs.Sound.{sound};

use crate::{core_part, volatile};
use boxes::BoxState;
use house::Plan;

// the first test that fails ends it
#[tactic(auto, unfolding(boxes::specs::Sound::sound, boxes::specs::Sound::box_sound))]
pub fn is_sound(plan: Plan, x: &BoxState) -> bool
    ensures { result ≡ sound plan x.now }
{
    house::plan_sound(plan)
        && core_part::range_sound(plan, x)
        && core_part::ballots_sound(plan, x)
        && core_part::table_sound(plan, x)
        && core_part::sent_sound(plan, x)
        && volatile::kept_sound(plan, x)
        && volatile::marks_sound(plan, x)
        && core_part::list_sound(plan, x)
        && volatile::vote_sound(plan, x)
}
