// The rows of a table and their rules, phase by phase.
// What each function means stands in specs/Rules.antt of records.
ghost use Rattle.std.specs.Prelude.{◌≡◌};
ghost use Rattle.records.specs.Rules.{clock_of, both_stamps, open_row, done_row, row_sound, rows_sound, none_proposed};

use house::{District, Plan, Row, Stamp};

// a stamp of the district, whose time may be 0
#[tactic(auto, unfolding(records::specs::Rules::clock_of))]
pub fn clock_of(d: District, s: Stamp) -> bool
    ensures { result ≡ clock_of d s }
{
    house::time_fits(s.time) && s.district == d
}

// the rules of phase 3
#[tactic(auto, unfolding(records::specs::Rules::both_stamps, house::specs::Pairs::stamp_lt))]
pub fn both_stamps(plan: Plan, job: u8, d: District, local: Stamp, global: Stamp) -> bool
    ensures { result ≡ both_stamps plan job d local global }
{
    house::stamp_of(d, local) && house::stamp_named(plan, job, global) && global >= local
}

// phases 1 and 2
#[tactic(auto, unfolding(records::specs::Rules::open_row, house::specs::Pairs::is_no_stamp, house::specs::Pairs::same_stamp))]
fn open_row(d: District, row: Row) -> bool
    ensures { result ≡ open_row d row }
{
    (row.phase == house::PROPOSED || row.phase == house::ACCEPTED)
        && house::stamp_of(d, row.local)
        && row.global == house::no_stamp()
}

#[tactic(auto, unfolding(records::specs::Rules::done_row))]
fn done_row(plan: Plan, job: u8, d: District, row: Row) -> bool
    ensures { result ≡ done_row plan job d row }
{
    row.phase == house::COMMITTED && both_stamps(plan, job, d, row.local, row.global)
}

#[tactic(auto, unfolding(records::specs::Rules::row_sound, records::specs::Rules::start_row, house::specs::Pairs::is_no_stamp, house::specs::Pairs::same_stamp))]
fn row_sound(plan: Plan, d: District, job: u8, row: Row) -> bool
    ensures { result ≡ row_sound plan d job row }
{
    row == house::no_row()
        || house::named(plan, job, d) && (open_row(d, row) || done_row(plan, job, d, row))
}

// the first n rows, each of its job; none stands behind the last
pub fn rows_sound(plan: Plan, d: District, table: [Row; house::JOBS], n: u8) -> bool
    ensures { result ≡ rows_sound plan d table n }
{
    (0..n)
        .zip(&table)
        .all(|(j, row)| row_sound(plan, d, j, *row))
}

// none of the first n rows is in phase 1
pub fn none_proposed(table: [Row; house::JOBS], n: u8) -> bool
    ensures { result ≡ none_proposed table n }
{
    table
        .iter()
        .take(n as usize)
        .all(|row| row.phase != house::PROPOSED)
}
