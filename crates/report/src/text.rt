// Bytes, numbers and answers put into a text.
// Their spelling stands in specs/Texts.antt.
ghost use Rattle.std.specs.Prelude.{[], ◌∷◌, ◌++◌, ◌≡◌, ◌≤◌, length};
ghost use Rattle.laws.specs.Tray.{onto};
ghost use Rattle.lines.specs.Numeral.{decimal};
ghost use Rattle.lines.specs.Parts.{line_feed};
ghost use Rattle.report.specs.Texts.{item, numbered_text, answer_most};

// A copy of the bytes.
#[tactic(auto, unfolding(laws::specs::Tray::onto))]
pub fn put(bytes: &[u8], t: &mut [u8]) -> usize
    requires { length bytes.now ≤ length t.old }
    ensures { (result ≡ length bytes.now) × (t.new ≡ onto bytes.now t.old) }
{
    t[..bytes.len()].copy_from_slice(bytes);
    bytes.len()
}

// A number in decimal.
pub fn put_decimal(n: u32, t: &mut [u8]) -> usize
    requires { length (decimal n) ≤ length t.old }
    ensures { (result ≤ 10) × (result ≡ length (decimal n)) × (t.new ≡ onto (decimal n) t.old) }
{
    let mut digits = [0u8; 20];
    let k = io::decimal(n as u64, &mut digits);
    put(&digits[..k], t)
}

// A space and a number.
pub fn put_item(n: u8, t: &mut [u8]) -> usize
    requires { 4 ≤ length t.old }
    ensures { (result ≤ 4) × (result ≡ length (item n)) × (t.new ≡ onto (item n) t.old) }
{
    let a = put(b" ", t);
    a + put_decimal(n as u32, &mut t[a..])
}

// A word of three bytes, a number, and the end of the line.
fn put_answer(word: &[u8; 3], n: u32, t: &mut [u8]) -> usize
    requires { answer_most ≤ length t.old }
    ensures { (result ≤ answer_most) × (result ≡ length ((word.now ++ decimal n) ++ (line_feed ∷ []))) × (t.new ≡ onto ((word.now ++ decimal n) ++ (line_feed ∷ [])) t.old) }
{
    let a = put(word, t);
    let b = a + put_decimal(n, &mut t[a..]);
    b + put(b"\n", &mut t[b..])
}

// The answer to a line: `ok N`, the records written, or `no N`, the number of the refusal.
#[tactic(auto, unfolding(crate::specs::Texts::answer_text, laws::specs::Choice::pick))]
pub fn answer_line(answer: Result<u32, u32>, t: &mut [u8]) -> usize
    requires { answer_most ≤ length t.old }
    ensures { (result ≤ answer_most) × (result ≡ length (numbered_text answer)) × (t.new ≡ onto (numbered_text answer) t.old) }
{
    match answer {
        Ok(records) => put_answer(b"ok ", records, t),
        Err(n) => put_answer(b"no ", n, t),
    }
}
