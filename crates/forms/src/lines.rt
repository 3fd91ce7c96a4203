ghost use Rattle.std.specs.Prelude.{◌≡◌, ℕ, ◌<◌, length, MatchOption, ◌≢◌, slice_index};
ghost use Rattle.forms.specs.Forms.{Lined, OnlyLine, Lineless};

// Where the first line of `text` ends.
fn line_end(text: &[u8]) -> Option<usize>
    ensures { MatchOption result ((k : ℕ) → k < length text.now → slice_index text.now k ≢ 10)
        (λ n. (n < length text.now) × (slice_index text.now n ≡ 10) × ((k : ℕ) → k < n → slice_index text.now k ≢ 10)) }
{
    text.iter().position(|b| matches!(char::from(*b), '\n'))
}

// The line that `text` begins with, without the byte 10 that ends it, and what follows that.
pub fn line<'f>(text: &'f [u8]) -> Option<(&'f [u8], &'f [u8])>
    ensures { MatchOption result (Lineless text.now)
        (λ p. Lined p.0.now p.1.now text.now × OnlyLine p.0.now p.1.now text.now) }
{
    let end = line_end(text)?;
    Some((&text[..end], &text[end + 1..]))
}
