// The report as text.
// The promise, Closed, stands in specs/Promise.antt.
ghost use Rattle.std.specs.Prelude.{◌≡◌, true, ◌*◌, ◌≤◌, ◌<◌, length};
ghost use Rattle.laws.specs.Tray.{onto, all_for};
ghost use Rattle.house.specs.Limits.{most_boxes, most_jobs};
ghost use Rattle.house.specs.Plan.{boxes_of, plan_sound};
ghost use Rattle.report.specs.Report.{box_text, box_most, job_most};
ghost use Rattle.closing.specs.Endings.{jobs_of, shown_of};
ghost use Rattle.closing.specs.Ends.{AllEnded};
ghost use Rattle.closing.specs.Holders.{Ended};
ghost use Rattle.closing.specs.Closing.{box_report, job_report, sound_report, report_most};
ghost use Rattle.closing.specs.Promise.{Closed};

use crate::endings;
use crate::endings::JobEnd;
use boxes::BoxState;
use house::{BoxNo, Plan};
use rehearsal::Night;

// what the boxes say of each job, and how long their lines are
#[derive(Clone, Copy)]
struct Boxed {
    ends: [JobEnd; house::JOBS],
    used: usize,
}

// the line of a box
fn put_box(p: BoxNo, x: BoxState, t: &mut [u8]) -> usize
    requires { (p.0 < most_boxes) × (box_most ≤ length t.old) }
    ensures { (result ≤ box_most) × (result ≡ length (box_text p.0 (jobs_of x) (shown_of x))) × (t.new ≡ onto (box_text p.0 (jobs_of x) (shown_of x)) t.old) }
{
    report::box_line(p, endings::jobs_of(x), endings::shown_of(x), t)
}

// the line of a job, from what the boxes say of it
fn put_job(plan: Plan, job: u8, end: JobEnd, t: &mut [u8]) -> usize
    requires { (plan_sound plan ≡ true) × (job_most ≤ length t.old) }
    ensures { (result ≤ job_most) × ((night : Night) → Ended night job (boxes_of plan) end → (result ≡ length (job_report plan night job)) × (t.new ≡ onto (job_report plan night job) t.old)) }
{
    let finished = endings::finished_below(plan, job, end.holders, plan.districts);
    report::job_line(job, end.first, finished, t)
}

// the lines of the first n boxes, and what these boxes say of each job
fn put_boxes(night: Night, n: usize, t: &mut [u8]) -> Boxed
    requires { (n ≤ most_boxes) × (most_boxes * box_most ≤ length t.old) }
    ensures { (result.used ≤ most_boxes * box_most) × (result.used ≡ length (all_for (box_report night) n)) × (t.new ≡ onto (all_for (box_report night) n) t.old) × AllEnded night n result.ends }
{
    let mut ends = endings::no_ends();
    let mut used = 0;
    for (i, x) in night.boxes[..n].iter().enumerate() {
        let p = BoxNo(i as u8);
        used += put_box(p, *x, &mut t[used..]);
        endings::with_box(&mut ends, p, *x);
    }
    Boxed { ends, used }
}

// the lines of the first n jobs, from what the boxes say of each
fn put_jobs(plan: Plan, ends: [JobEnd; house::JOBS], n: u8, t: &mut [u8]) -> usize
    requires { (plan_sound plan ≡ true) × (n ≤ most_jobs) × (most_jobs * job_most ≤ length t.old) }
    ensures { (result ≤ most_jobs * job_most) × ((night : Night) → AllEnded night (boxes_of plan) ends → (result ≡ length (all_for (job_report plan night) n)) × (t.new ≡ onto (all_for (job_report plan night) n) t.old)) }
{
    let mut used = 0;
    for (j, end) in ends[..n as usize].iter().enumerate() {
        used += put_job(plan, j as u8, *end, &mut t[used..]);
    }
    used
}

// the report of a sound plan
fn put_report(plan: Plan, night: Night, t: &mut [u8]) -> usize
    requires { (plan_sound plan ≡ true) × (report_most ≤ length t.old) }
    ensures { (result ≤ report_most) × (result ≡ length (sound_report plan night)) × (t.new ≡ onto (sound_report plan night) t.old) }
{
    let boxed = put_boxes(night, house::boxes_of(plan) as usize, t);
    boxed.used + put_jobs(plan, boxed.ends, plan.jobs, &mut t[boxed.used..])
}

// the report: nothing for an unsound plan
pub fn close(plan: Plan, night: Night, t: &mut [u8; crate::REPORT_ROOM]) -> usize
    ensures { Closed plan night t.old result t.new }
{
    if !house::plan_sound(plan) {
        return 0;
    }
    put_report(plan, night, t)
}
