// Jobs that are ready handed out: their DELIVER records, and the flags that they were sent.
// The definition, hand_out, stands in specs/Ready.antt of boxes.
ghost use Rattle.std.specs.Prelude.{◌≡◌, true, ◌≤◌, length};
ghost use Rattle.house.specs.Limits.{most_boxes};
ghost use Rattle.laws.specs.Tray.{onto};
ghost use Rattle.house.specs.Plan.{plan_sound};
ghost use Rattle.records.specs.Bytes.{encode_all};
ghost use Rattle.boxes.specs.Box.{put_sent};
ghost use Rattle.boxes.specs.Ready.{hand_out};
ghost use Rattle.boxes.specs.declared.Volatile.{Volatile};
ghost use Rattle.sending.specs.Turns.{box_of, delivers_from};

use crate::{Sent, draft, ready, sends};
use boxes::Core;
use house::{Ballot, BoxNo, Plan, Row};

// the sent flags after handing out, and what was written
#[derive(Clone, Copy)]
pub struct Handed {
    pub sent: [bool; house::JOBS],
    pub used: usize,
    pub records: u16,
}

// DELIVER of one job to the boxes of the district
fn hand_job(t: &mut [u8], plan: Plan, own: BoxNo, b: Ballot, row: Row, job: u8) -> Sent
    requires { (plan_sound plan ≡ true) × (length (encode_all plan (delivers_from plan own b row job)) ≤ length t.old) }
    ensures { (result.used ≡ length (encode_all plan (delivers_from plan own b row job))) × (result.records ≡ length (delivers_from plan own b row job)) × (t.new ≡ onto (encode_all plan (delivers_from plan own b row job)) t.old) × (result.records ≤ most_boxes) }
{
    let r = draft::deliver_record(own, own, job, b, row);
    sends::send(t, plan, r, house::home_boxes(plan, own))
}

// all ready jobs of a box with this core, whatever its volatile part
pub fn hand_out(t: &mut [u8], plan: Plan, c: Core) -> Handed
    requires { (plan_sound plan ≡ true) × ((v : Volatile) × (length (encode_all plan (hand_out plan (box_of c v)).sent) ≤ length t.old)) }
    ensures { (v : Volatile) → (put_sent (box_of c v) result.sent ≡ (hand_out plan (box_of c v)).box) × (result.used ≡ length (encode_all plan (hand_out plan (box_of c v)).sent)) × (result.records ≡ length (hand_out plan (box_of c v)).sent) × (t.new ≡ onto (encode_all plan (hand_out plan (box_of c v)).sent) t.old) }
{
    let Core {
        own,
        cballot,
        table,
        mut sent,
        ..
    } = c;
    let mut used = 0;
    let mut records = 0;
    let n = plan.jobs as usize;
    for _ in 0..n {
        let Some(job) = ready::next_ready(table, sent, n) else {
            break;
        };
        let row = table[job as usize];
        let s = hand_job(&mut t[used..], plan, own, cballot, row, job);
        used += s.used;
        records += s.records;
        sent[job as usize] = true;
    }
    Handed {
        sent,
        used,
        records,
    }
}
