// The core of a sound box: its numbers, ballots, table, flags and list.
// What each function means stands in specs/Sound.antt of boxes.
ghost use Rattle.std.specs.Prelude.{◌≡◌};
ghost use Rattle.boxes.specs.Sound.{range_sound, ballots_sound, table_sound, sent_sound, list_sound};
ghost use Rattle.soundness.specs.Lists.{entry_sound, no_entry, place_sound};

use boxes::{BoxState, Core, Listed};
use house::{District, Plan, Stamp};

// how many values a byte has: a flag for each
const BYTES: usize = 256;

#[tactic(auto, unfolding(boxes::specs::Sound::range_sound))]
pub fn range_sound(plan: Plan, x: &BoxState) -> bool
    ensures { result ≡ range_sound plan x.now }
{
    house::is_box(plan, x.core.own) && house::time_fits(x.core.clock)
}

#[tactic(auto, unfolding(boxes::specs::Sound::ballots_sound, house::specs::Pairs::ballot_lt, house::specs::Pairs::same_ballot))]
pub fn ballots_sound(plan: Plan, x: &BoxState) -> bool
    ensures { result ≡ ballots_sound plan x.now }
{
    let Core {
        own,
        status,
        ballot,
        cballot,
        ..
    } = x.core;
    let home = house::home_of(plan, own);
    cballot <= ballot
        && (boxes::is_recovering(status) || cballot == ballot)
        && house::none_or_in(plan, home, ballot)
        && house::none_or_in(plan, home, cballot)
        && (!boxes::is_leader(status) || house::ballot_of(own, cballot))
}

#[tactic(auto, unfolding(boxes::specs::Sound::table_sound))]
pub fn table_sound(plan: Plan, x: &BoxState) -> bool
    ensures { result ≡ table_sound plan x.now }
{
    let home = house::home_of(plan, x.core.own);
    rules::rows_sound(plan, home, x.core.table, plan.jobs)
        && rules::spare_rows(x.core.table, plan.jobs)
}

pub fn sent_sound(plan: Plan, x: &BoxState) -> bool
    ensures { result ≡ sent_sound plan x.now }
{
    (0..house::MOST_JOBS)
        .zip(&x.core.sent)
        .all(|(j, sent)| house::is_job(plan, j) || !*sent)
}

// an entry behind one of stamp `last`; `again`: its job stands before it too
#[tactic(auto, unfolding(crate::specs::Lists::entry_sound, house::specs::Pairs::stamp_lt))]
fn entry_sound(plan: Plan, home: District, first: bool, last: Stamp, again: bool, e: Listed) -> bool
    ensures { result ≡ entry_sound plan home first last again e }
{
    house::named(plan, e.job, home)
        && house::stamp_named(plan, e.job, e.stamp)
        && (first || last < e.stamp)
        && !again
}

// nothing is listed behind the last place
#[tactic(auto, unfolding(crate::specs::Lists::no_entry, house::specs::Pairs::is_no_stamp, house::specs::Pairs::same_stamp))]
fn is_unlisted(e: Listed) -> bool
    ensures { result ≡ no_entry e }
{
    e.job == 0 && e.stamp == house::no_stamp()
}

// a place of the list, or one behind it
#[tactic(auto, unfolding(crate::specs::Lists::place_sound, laws::specs::Choice::pick))]
fn place_sound(
    plan: Plan,
    home: District,
    listed: bool,
    first: bool,
    last: Stamp,
    again: bool,
    e: Listed,
) -> bool
    ensures { result ≡ place_sound plan home listed first last again e }
{
    if listed {
        return entry_sound(plan, home, first, last, again, e);
    }
    is_unlisted(e)
}

// one pass: a job is flagged where it is listed, and before the first entry stands the first itself
pub fn list_sound(plan: Plan, x: &BoxState) -> bool
    ensures { result ≡ list_sound plan x.now }
{
    let home = house::home_of(plan, x.core.own);
    let mut last = x.core.list[0].stamp;
    let mut seen = [false; BYTES];
    for (i, e) in x.core.list.iter().enumerate() {
        let listed = i < x.core.count as usize;
        let again = seen[e.job as usize];
        if !place_sound(plan, home, listed, i == 0, last, again, *e) {
            return false;
        }
        seen[e.job as usize] = true;
        last = e.stamp;
    }
    x.core.count <= house::MOST_JOBS
}
