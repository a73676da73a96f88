// The lines of the closing report: one for a box, one for a job.
// Their spelling stands in specs/Report.antt.
ghost use Rattle.std.specs.Prelude.{◌≡◌, ◌≤◌, length};
ghost use Rattle.house.specs.Limits.{most_jobs};
ghost use Rattle.laws.specs.Tray.{onto};
ghost use Rattle.report.specs.Report.{titled, jobs_text, list_text, box_text, stamp_text, job_text, box_most, job_most};

use crate::text;
use house::{BoxNo, Stamp};

// A word of three bytes and a number.
fn put_titled(word: &[u8; 3], n: u8, t: &mut [u8]) -> usize
    requires { 7 ≤ length t.old }
    ensures { (result ≤ 7) × (result ≡ length (titled word.now n)) × (t.new ≡ onto (titled word.now n) t.old) }
{
    let a = text::put(word, t);
    a + text::put_item(n, &mut t[a..])
}

// The first `count` jobs of a list, a space before each.
fn put_jobs(list: [u8; house::JOBS], count: usize, t: &mut [u8]) -> usize
    requires { (count ≤ most_jobs) × (256 ≤ length t.old) }
    ensures { (result ≤ 256) × (result ≡ length (jobs_text list count)) × (t.new ≡ onto (jobs_text list count) t.old) }
{
    let mut used = 0;
    for job in &list[..count] {
        used += text::put_item(*job, &mut t[used..]);
    }
    used
}

// ` list`, the jobs, and the end of the line.
fn put_list(list: [u8; house::JOBS], count: usize, t: &mut [u8]) -> usize
    requires { (count ≤ most_jobs) × (262 ≤ length t.old) }
    ensures { (result ≤ 262) × (result ≡ length (list_text list count)) × (t.new ≡ onto (list_text list count) t.old) }
{
    let a = text::put(b" list", t);
    let b = a + put_jobs(list, count, &mut t[a..]);
    b + text::put(b"\n", &mut t[b..])
}

// `box B list` and the jobs of the list.
pub fn box_line(number: BoxNo, list: [u8; house::JOBS], count: usize, t: &mut [u8]) -> usize
    requires { (count ≤ most_jobs) × (box_most ≤ length t.old) }
    ensures { (result ≤ box_most) × (result ≡ length (box_text number.0 list count)) × (t.new ≡ onto (box_text number.0 list count) t.old) }
{
    let a = put_titled(b"box", number.0, t);
    a + put_list(list, count, &mut t[a..])
}

// The time and the district of a stamp, or `- -` where there is none.
fn put_stamp(committed: Option<Stamp>, t: &mut [u8]) -> usize
    requires { 15 ≤ length t.old }
    ensures { (result ≤ 15) × (result ≡ length (stamp_text committed)) × (t.new ≡ onto (stamp_text committed) t.old) }
{
    let Some(stamp) = committed else {
        return text::put(b" - -", t);
    };
    let a = text::put(b" ", t);
    let b = a + text::put_decimal(stamp.time, &mut t[a..]);
    b + text::put_item(stamp.district.0, &mut t[b..])
}

// `job K TIME DISTRICT yes` or `no`.
pub fn job_line(job: u8, committed: Option<Stamp>, finished: bool, t: &mut [u8]) -> usize
    requires { job_most ≤ length t.old }
    ensures { (result ≤ job_most) × (result ≡ length (job_text job committed finished)) × (t.new ≡ onto (job_text job committed finished) t.old) }
{
    let a = put_titled(b"job", job, t);
    let b = a + put_stamp(committed, &mut t[a..]);
    b + text::put(if finished { b" yes\n" } else { b" no\n" }, &mut t[b..])
}
