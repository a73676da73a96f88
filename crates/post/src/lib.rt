// The post's bytes: its room, where records begin, and writing behind the last. The definitions stand in specs/Posting.antt and specs/Index.antt.
#![tactic(auto)]

ghost use Rattle.std.specs.Prelude.{◌≡◌, ◌++◌, ◌+◌, ◌≤◌, ◌<◌, length, get_or, take, drop, leb, ltb};
ghost use Rattle.laws.specs.Tray.{onto};
ghost use Rattle.laws.specs.Choice.{pick};
ghost use Rattle.house.specs.Limits.{most_post};
ghost use Rattle.post.specs.Posting.{room_of, next_start, walk_from, start_of, most_place};
ghost use Rattle.post.specs.Index.{Indexed};

use house::Plan;

// the shortest record, the most records that a post holds, and the room of an index that has a place for each of them and one behind
const LEAST_RECORD: usize = 8;

const MOST_RECORDS: usize = house::MOST_POST / LEAST_RECORD;

pub const INDEX_ROOM: usize = MOST_RECORDS + 1;

// where the first records begin, up to the one of number `last`: as many as its lender gives places for. Who lends them finds in them
// what the index knew last, since its functions keep the places' ghost name
#[derive(Drop)]
pub struct Index<'a> {
    places: &'a mut [u16],
    last: usize,
}

impl<'a> Index<'a> {
    ghost use Rattle.std.specs.Prelude.{ℕ, List};
    ghost use Rattle.house.specs.declared.Plan.{Plan};
    ghost use Rattle.post.specs.Index.{Indexed};

    // the first record begins at 0, whatever the plan and the post
    pub fn new(places: &'a mut [u16]) -> Index<'a>
        ensures { (0 < length places.old → (P : Plan) (s : List ℕ) (used : ℕ) → Indexed P s used result.places.now result.last) × (result.places.ghost_name ≡ places.entry.ghost_name) }
    {
        if places.is_empty() {
            return Index { places, last: 0 };
        }
        places[0] = 0;
        Index { places, last: 0 }
    }

    // over places that know where the records up to the one of number `last` begin
    pub fn of(places: &'a mut [u16], last: usize) -> Index<'a>
        ensures { (result.places.now ≡ places.old) × (result.last ≡ last) × (result.places.ghost_name ≡ places.entry.ghost_name) }
    {
        Index { places, last }
    }

    // the number of the last record that it has
    pub fn last(&self) -> usize
        ensures { result ≡ self.now.last }
    {
        self.last
    }

    // it goes on until it has record k, or as far as records lie within what is used and its places go
    pub fn extend(&mut self, plan: Plan, s: &[u8], used: usize, k: u32)
        requires { Indexed plan s.now used self.old.places.now self.old.last }
        ensures { Indexed plan s.now used self.new.places.now self.new.last × (self.old.last ≤ self.new.last) × (self.new.places.ghost_name ≡ self.old.places.ghost_name) }
    {
        self.last = extend(plan, s, used, self.places, self.last, k);
    }

    // where record k begins
    pub fn find_start(&self, plan: Plan, s: &[u8], used: usize, k: u32) -> usize
        requires { Indexed plan s.now used self.now.places.now self.now.last }
        ensures { (result ≡ start_of plan s.now used k) × (result ≤ most_place) }
    {
        find_start(plan, s, used, k, self.places, self.last)
    }
}

pub fn room_of(post: &[u8]) -> usize
    ensures { (result ≡ room_of post.now) × (result ≤ length post.now) }
{
    post.len().min(house::MOST_POST)
}

// whether so many bytes more fit
pub fn more_fits(used: usize, more: usize, room: usize) -> bool
    ensures { result ≡ leb (used + more) room }
{
    room.checked_sub(used).is_some_and(|left| more <= left)
}

pub fn byte_at(s: &[u8], at: usize) -> u8
    ensures { result ≡ get_or s.now at 0 }
{
    s.get(at).copied().unwrap_or(0)
}

// where the next record begins
fn next_start(plan: Plan, s: &[u8], used: usize, at: usize) -> usize
    requires { at ≤ most_place }
    ensures { (result ≡ next_start plan s.now used at) × (result ≤ at + 5000) }
{
    if at < used {
        return at + records::length_of(plan, byte_at(s, at + 1));
    }
    at
}

// where the record so many places behind the one at a place begins
fn start_from(plan: Plan, s: &[u8], used: usize, from: usize, k: u32) -> usize
    requires { from < most_post }
    ensures { (result ≡ walk_from plan s.now used from k) × (result ≤ most_place) }
{
    let mut at = from;
    for _ in 0..k {
        if used <= at {
            return at;
        }
        at = next_start(plan, s, used, at);
    }
    at
}

// an index of `count` records goes on until it has record k, or as far as records lie within what is used and its room goes: the last record
// that it has
pub fn extend(plan: Plan, s: &[u8], used: usize, index: &mut [u16], count: usize, k: u32) -> usize
    requires { Indexed plan s.now used index.old count }
    ensures { Indexed plan s.now used index.new result × (count ≤ result) }
{
    let mut last = count;
    for _ in count..k as usize {
        let at = index[last] as usize;
        let next = next_start(plan, s, used, at);
        if last + 1 == index.len() || used <= at || used < next || house::MOST_POST <= next {
            return last;
        }
        last += 1;
        index[last] = next as u16;
    }
    last
}

// where record k begins: by the index as far as it goes, else on from its last place
pub fn find_start(plan: Plan, s: &[u8], used: usize, k: u32, index: &[u16], count: usize) -> usize
    requires { Indexed plan s.now used index.now count }
    ensures { (result ≡ start_of plan s.now used k) × (result ≤ most_place) }
{
    let want = k as usize;
    if want <= count {
        return index[want] as usize;
    }
    let at = index[count] as usize;
    start_from(plan, s, used, at, k - count as u32)
}

// the smaller of a place and a length
pub fn within(at: usize, len: usize) -> usize
    ensures { (result ≡ pick (ltb at len) at len) × (result ≤ len) × (result ≤ at) }
{
    at.min(len)
}

// bytes written behind what is used
pub fn put_behind(post: &mut [u8], used: usize, bytes: &[u8])
    requires { used + length bytes.now ≤ length post.old }
    ensures { post.new ≡ take used post.old ++ onto bytes.now (drop used post.old) }
{
    post[used..used + bytes.len()].copy_from_slice(bytes);
}
