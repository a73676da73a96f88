// Whether what an order names is there, and where: its box, its record.
// The definition, exists, stands in specs/Night.antt.
ghost use Rattle.std.specs.Prelude.{true, ◌≡◌, ◌<◌, ◌≤◌};
ghost use Rattle.house.specs.Limits.{most_boxes};
ghost use Rattle.house.specs.declared.Order.TheVariants.{Carry};
ghost use Rattle.boxes.specs.Lengths.{Lengths};
ghost use Rattle.boxes.specs.Sound.{sound};
ghost use Rattle.post.specs.Index.{Indexed};
ghost use Rattle.post.specs.Posting.{most_place};
ghost use Rattle.rehearsal.specs.Night.{exists};
ghost use Rattle.rehearsal.specs.Alone.{here, Starts, Found};

use boxes::BoxState;
use house::{Order, Plan};
use post::Index;

// which box an order is for, the first if there is none such; where the record begins that it carries
#[derive(Clone, Copy)]
pub struct Place {
    pub at: usize,
    pub start: usize,
}

// a place of the night, the first for a number that has none
fn place_of(p: u32) -> usize
    ensures { (result < most_boxes) × (p < most_boxes → result ≡ p) }
{
    if p < house::MOST_BOXES as u32 {
        return p as usize;
    }
    0
}

// where the record that is carried begins, and its box; the index goes on to it, where the plan is fixed
fn find_record(
    plan: Plan,
    fixed: bool,
    used: usize,
    k: u32,
    post: &[u8],
    index: &mut Index<'_>,
) -> Place
    requires { Indexed plan post.now used index.old.places.now index.old.last }
    ensures { Found plan fixed used (Carry k) post.now index.old result index.new }
{
    if fixed {
        index.extend(plan, post, used, k);
    }
    let start = index.find_start(plan, post, used, k);
    let to = post::byte_at(post, start + 3);
    Place {
        at: place_of(to as u32),
        start,
    }
}

// which box an order is for, and where its record begins
pub fn find(
    plan: Plan,
    fixed: bool,
    used: usize,
    order: Order,
    post: &[u8],
    index: &mut Index<'_>,
) -> Place
    requires { Indexed plan post.now used index.old.places.now index.old.last }
    ensures { Found plan fixed used order post.now index.old result index.new }
{
    match order {
        Order::Post(_) => Place { at: 0, start: 0 },
        Order::Stand(p) | Order::Retry(p, _) | Order::Cut(p) => Place {
            at: place_of(p),
            start: 0,
        },
        Order::Carry(k) => find_record(plan, fixed, used, k, post, index),
    }
}

// such a box, job or record exists
#[tactic(auto, unfolding(crate::specs::Night::exists, house::specs::Plan::is_job, post::specs::Posting::to_box))]
pub fn is_there(plan: Plan, used: usize, order: Order, start: usize, post: &[u8]) -> bool
    requires { (start ≤ most_place) × Starts plan post.now used order start }
    ensures { result ≡ exists plan (here used) post.now order }
{
    let boxes = house::boxes_of(plan);
    let jobs = plan.jobs as u32;
    match order {
        Order::Post(j) => j < jobs,
        Order::Stand(p) => p < boxes as u32,
        Order::Retry(p, j) => p < boxes as u32 && j < jobs,
        Order::Cut(p) => p < boxes as u32,
        Order::Carry(k) => start < used && (post::byte_at(post, start + 3) as u16) < boxes,
    }
}

// whether plan and box are sound, which may be known already; and a box's arrays have their lengths
pub fn known_sound(plan: Plan, known: bool, x: BoxState) -> bool
    requires { known ≡ true → sound plan x ≡ true }
    ensures { (result ≡ sound plan x) × Lengths x }
{
    known || soundness::is_sound(plan, &x)
}
