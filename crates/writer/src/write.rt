// A record written into a tray, if plan, tray and record allow it.
// The promise, RecordWritten, stands in specs/Outcome.antt of records.
ghost use Rattle.std.specs.Prelude.{◌≡◌, true, ◌≤◌, length};
ghost use Rattle.laws.specs.Tray.{onto};
ghost use Rattle.house.specs.Plan.{plan_sound};
ghost use Rattle.records.specs.Bytes.{encode};
ghost use Rattle.records.specs.Outcome.{write_answer, RecordWritten};

use crate::put;
use house::Plan;
use records::{Answer, Record, Refusal};

// the record's bytes over the front of the tray; how many they are
pub fn put_record(t: &mut [u8], plan: Plan, r: Record) -> usize
    requires { (plan_sound plan ≡ true) × (length (encode plan r) ≤ length t.old) }
    ensures { (result ≡ length (encode plan r)) × (t.new ≡ onto (encode plan r) t.old) }
{
    let ballots = &r.ballots[..records::ballots_in(plan, r.kind) as usize];
    let stamps = &r.stamps[..records::stamps_in(r.kind) as usize];
    let rows = &r.table[..records::rows_in(plan, r.kind) as usize];
    let a = put::put_head(t, r);
    let b = a + put::put_section(&mut t[a..], ballots);
    let c = b + put::put_section(&mut t[b..], stamps);
    c + put::put_section(&mut t[c..], rows)
}

// whether the record may be written into a tray of so many bytes
#[tactic(auto, unfolding(records::specs::Outcome::write_answer))]
fn may_write(plan: Plan, r: Record, room: usize) -> Answer
    ensures { result ≡ write_answer plan r room }
{
    if !house::plan_sound(plan) {
        return Err(Refusal::NotSound);
    }
    if room < house::LEAST_TRAY {
        return Err(Refusal::SmallTray);
    }
    if !rules::is_valid(plan, r) {
        return Err(Refusal::BrokenRule);
    }
    Ok(())
}

// writes the record, or changes nothing; how many bytes it wrote
pub fn write_record(plan: Plan, r: Record, tray: &mut [u8]) -> Result<usize, Refusal>
    ensures { RecordWritten plan r tray.old result tray.new }
{
    may_write(plan, r, tray.len())?;
    Ok(put_record(tray, plan, r))
}
