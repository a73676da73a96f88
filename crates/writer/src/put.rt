// The parts of a record as bytes: its head, and a section of ballots, stamps or rows.
// Their bytes stand in specs/Bytes.antt of records.
ghost use Rattle.std.specs.Prelude.{◌≡◌, ◌<◌, ◌≤◌, length};
ghost use Rattle.laws.specs.Tray.{onto};
ghost use Rattle.records.specs.Fields.{section_of};
ghost use Rattle.records.specs.Bytes.{head_bytes};

use records::{Part, Record};

// kind, from, to, job
#[tactic(auto, unfolding(records::specs::Bytes::head_bytes, laws::specs::Tray::onto))]
pub fn put_head(t: &mut [u8], r: Record) -> usize
    requires { 5 ≤ length t.old }
    ensures { (result ≡ 5) × (t.new ≡ onto (head_bytes r) t.old) }
{
    t[..5].copy_from_slice(&[4, r.kind, r.from.0, r.to.0, r.job]);
    5
}

// a count, and so many parts
pub fn put_section<T: Part>(t: &mut [u8], parts: &[T]) -> usize
    requires count { length parts.now < 256 }
    requires room { length (section_of T.codec parts.now) ≤ length t.old }
    ensures used { result ≡ length (section_of T.codec parts.now) }
    ensures bytes { t.new ≡ onto (section_of T.codec parts.now) t.old }
{
    t[0] = parts.len() as u8;
    let mut used = 1;
    for part in parts {
        part.put(&mut t[used..]);
        used += T::WIDTH;
    }
    used
}
