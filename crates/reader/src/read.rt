// Bytes read as a record, if plan, shape and rules allow it.
// The promise, RecordRead, stands in specs/Outcome.antt of records.
ghost use Rattle.std.specs.Prelude.{◌≡◌, true};
ghost use Rattle.house.specs.Plan.{plan_sound};
ghost use Rattle.records.specs.Bytes.{shaped, parse};
ghost use Rattle.records.specs.Outcome.{RecordRead};

use crate::get;
use house::Plan;
use records::{Record, Refusal};

// a known kind, its counts, and neither bytes missing nor left over
#[tactic(auto, unfolding(records::specs::Bytes::shaped, records::specs::Bytes::length_of, records::specs::Bytes::rows_at))]
fn is_shaped(plan: Plan, s: &[u8]) -> bool
    ensures { result ≡ shaped plan s.now }
{
    if s.len() < 6 {
        return false;
    }
    let kind = s[1];
    if !records::is_known(kind) || s.len() != records::length_of(plan, kind) {
        return false;
    }
    let p = records::stamps_at(plan, kind);
    let q = records::rows_at(plan, kind);
    s[0] == 4
        && s[5] == records::ballots_in(plan, kind)
        && s[p] == records::stamps_in(kind)
        && s[q] == records::rows_in(plan, kind)
}

// the record of such bytes: each part behind a count goes to that section's reader
fn parse_record(plan: Plan, s: &[u8]) -> Record
    requires { (plan_sound plan ≡ true) × (shaped plan s.now ≡ true) }
    ensures { result ≡ parse plan s.now }
{
    let head = get::read_head(&s[1..]);
    let p = records::stamps_at(plan, head.kind) + 1;
    let q = records::rows_at(plan, head.kind) + 1;
    Record {
        kind: head.kind,
        from: head.from,
        to: head.to,
        job: head.job,
        ballots: get::read_section(&s[6..], records::ballots_in(plan, head.kind)),
        stamps: get::read_section(&s[p..], records::stamps_in(head.kind)),
        table: get::read_section(&s[q..], records::rows_in(plan, head.kind)),
    }
}

// reads one record, which all bytes of s are, under a plan that is sound
pub fn read_bytes(plan: Plan, s: &[u8]) -> Result<Record, Refusal>
    requires { plan_sound plan ≡ true }
    ensures { RecordRead plan s.now result }
{
    if !is_shaped(plan, s) {
        return Err(Refusal::Unreadable);
    }
    let r = parse_record(plan, s);
    if !rules::is_valid(plan, r) {
        return Err(Refusal::BrokenRule);
    }
    Ok(r)
}

// the same under every plan
pub fn read_record(plan: Plan, s: &[u8]) -> Result<Record, Refusal>
    ensures { RecordRead plan s.now result }
{
    if !house::plan_sound(plan) {
        return Err(Refusal::NotSound);
    }
    read_bytes(plan, s)
}
