// One record written into the tray for each box that is meant.
// What is written stands in specs/Sends.antt.
ghost use Rattle.std.specs.Prelude.{◌≡◌, true, List, ◌≤◌, length};
ghost use Rattle.house.specs.Limits.{most_boxes};
ghost use Rattle.laws.specs.Tray.{onto};
ghost use Rattle.house.specs.Plan.{plan_sound};
ghost use Rattle.records.specs.Bytes.{encode_all};
ghost use Rattle.records.specs.Rec.{Rec};
ghost use Rattle.boxes.specs.Out.{does, result_of};
ghost use Rattle.sending.specs.Sends.{sent_bytes, sent_count, Sends};

use crate::Sent;
use boxes::{BoxState, Outcome};
use house::{BoxNo, Plan};
use records::Record;

// the record to each box that is meant, by rising box number: one copy of it, which names the box in turn
pub fn send(t: &mut [u8], plan: Plan, mut r: Record, meant: u32) -> Sent
    requires { (plan_sound plan ≡ true) × (length (sent_bytes plan meant r) ≤ length t.old) }
    ensures { (result.used ≡ length (sent_bytes plan meant r)) × (result.records ≡ sent_count plan meant) × (t.new ≡ onto (sent_bytes plan meant r) t.old) × (result.records ≤ most_boxes) }
{
    let mut used = 0;
    let mut records = 0;
    for p in 0..house::boxes_of(plan) {
        let to = BoxNo(p as u8);
        if house::has_mark(meant, to) {
            r.to = to;
            used += writer::put_record(&mut t[used..], plan, r);
            records += 1;
        }
    }
    Sent { used, records }
}

// a step that is done: the box after it, and one record sent
pub fn done_sending(plan: Plan, x: BoxState, r: Record, meant: u32, tray: &mut [u8]) -> Outcome
    requires { (plan_sound plan ≡ true) × ((l : List Rec) × Sends plan l meant r × (length (encode_all plan l) ≤ length tray.old)) }
    ensures { (l : List Rec) → Sends plan l meant r → (result ≡ result_of plan x (does x l None)) × (tray.new ≡ onto (encode_all plan l) tray.old) }
{
    let s = send(tray, plan, r, meant);
    boxes::done(x, s.used, s.records, None)
}
