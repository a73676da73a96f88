// The parts of a record from bytes: its head, and a section of ballots, stamps or rows.
// Their bytes stand in specs/Bytes.antt of records.
ghost use Rattle.std.specs.Prelude.{◌≡◌, ◌++◌, ◌*◌, ◌-◌, ◌≤◌, length, replicate};
ghost use Rattle.laws.specs.Codec.{dec_row};
ghost use Rattle.reader.specs.Head.{head_at};

use house::BoxNo;
use records::Part;

// what section 1 holds
#[derive(Clone, Copy)]
pub struct Head {
    pub kind: u8,
    pub from: BoxNo,
    pub to: BoxNo,
    pub job: u8,
}

// section 1: kind, from, to, job
#[tactic(auto, unfolding(crate::specs::Head::head_at))]
pub fn read_head(s: &[u8]) -> Head
    requires { 4 ≤ length s.now }
    ensures { result ≡ head_at s.now }
{
    Head {
        kind: s[0],
        from: BoxNo(s[1]),
        to: BoxNo(s[2]),
        job: s[3],
    }
}

// the first n parts of a section, and none behind them
pub fn read_section<T: Part, const N: usize>(s: &[u8], n: u8) -> [T; N]
    requires few { n ≤ N }
    requires room { n * T.WIDTH ≤ length s.now }
    ensures { result ≡ dec_row T.codec n s.now ++ replicate (N - n) T.nothing }
{
    let mut parts = [T::none(); N];
    // Stays: `array::from_fn` is no plainer, its closure needs a clause of its own on the room of each slice, and `i` counts places and bytes.
    for i in 0..n as usize {
        parts[i] = T::get(&s[i * T::WIDTH..]);
    }
    parts
}
