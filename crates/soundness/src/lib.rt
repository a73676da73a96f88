// Whether a box is sound: answer 1.
// The definition, sound, stands in specs/Sound.antt of boxes.
#![tactic(auto)]

mod core_part;
mod sound;
mod volatile;

pub use sound::is_sound;
