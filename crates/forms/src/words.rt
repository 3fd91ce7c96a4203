ghost use Rattle.std.specs.Option.{MatchOption};
ghost use Rattle.forms.specs.Forms.{Front, Worded, OnlyWord, Wordless};

// How many small letters `text` begins with.
// Digits and letters are counted apart: a byte is matched, as a character, against literal cases, not a parameter.
fn letters(text: &[u8]) -> usize
    ensures { Front 97 122 text.now result }
{
    text.iter()
        .position(|b| !matches!(char::from(*b), 'a'..='z'))
        .unwrap_or(text.len())
}

// The word that `text` begins with, of 1 to 12 small letters, and what follows it.
#[tactic(auto, using(crate::proofs::Spelled::no_word))]
pub fn word<'f>(text: &'f [u8]) -> Option<(&'f [u8], &'f [u8])>
    ensures { MatchOption result (Wordless text.now)
        (λ p. Worded p.0.now p.1.now text.now × OnlyWord p.0.now p.1.now text.now) }
{
    let n = letters(text);
    if n == 0 || n > 12 {
        return None;
    }
    Some(text.split_at(n))
}
