// The words of a line, and the numbers among them.
// What each function means stands in specs/Parts.antt and specs/Numeral.antt.
ghost use Rattle.std.specs.Prelude.{[], ◌∷◌, true, ◌≡◌, Some, None};
ghost use Rattle.std.specs.Option.{MatchOption};
ghost use Rattle.laws.specs.Choice.{pick};
ghost use Rattle.lines.specs.Parts.{same, words};
ghost use Rattle.lines.specs.Numeral.{is_number, value_of};

// Whether a word is the one that is meant.
pub fn is_word(word: &[u8], meant: &[u8]) -> bool
    ensures { result ≡ same word.now meant.now }
{
    word == meant
}

// A text's first word and what stands behind its space, or none where no space stands in the text.
pub fn split_word(text: &[u8]) -> Option<(&[u8], &[u8])>
    ensures { MatchOption result (words text.now ≡ text.now ∷ []) (λ parts. words text.now ≡ parts.0.now ∷ words parts.1.now) }
{
    let k = text.iter().position(|b| *b == b' ')?;
    Some((&text[..k], &text[k + 1..]))
}

// Whether a word is a number: 1 to 9 digits.
fn is_number(word: &[u8]) -> bool
    ensures { result ≡ is_number word.now }
{
    (1..=9).contains(&word.len()) && word.iter().all(|b| b.is_ascii_digit())
}

// The number that digits write.
fn value(digits: &[u8]) -> u32
    requires { is_number digits.now ≡ true }
    ensures { result ≡ value_of digits.now }
{
    let mut n = 0;
    for b in digits {
        n = n * 10 + (b - b'0') as u32;
    }
    n
}

// The number that a word writes, if it is one.
#[tactic(auto, unfolding(laws::specs::Choice::pick))]
pub fn number(word: &[u8]) -> Option<u32>
    ensures { result ≡ pick (is_number word.now) (Some (value_of word.now)) None }
{
    if !is_number(word) {
        return None;
    }
    Some(value(word))
}
