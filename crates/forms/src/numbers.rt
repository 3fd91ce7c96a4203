ghost use Rattle.std.specs.Prelude.{◌≡◌, ◌≤◌, length, MatchOption};
ghost use Rattle.std.specs.Str.Parse.{digits_value};
ghost use Rattle.forms.specs.Forms.{Each, Front, Numbered, OnlyNumber, Numberless};

// How many digits `text` begins with.
// Digits and letters are counted apart: a byte is matched, as a character, against literal cases, not a parameter.
fn digits(text: &[u8]) -> usize
    ensures { Front 48 57 text.now result }
{
    text.iter()
        .position(|b| !matches!(char::from(*b), '0'..='9'))
        .unwrap_or(text.len())
}

// The number that the digits write.
#[tactic(auto, using(crate::proofs::Read::digits_below, crate::proofs::Read::digits_more))]
fn value(digits: &[u8]) -> u32
    requires few { length digits.now ≤ 7 }
    requires digits { Each 48 57 digits.now }
    ensures { result ≡ digits_value 10 digits.now }
{
    let mut n: u32 = 0;
    for digit in digits {
        n = n * 10 + u32::from(*digit - b'0');
    }
    n
}

// The number that `text` begins with, of 1 to 7 digits and with no needless 0 in front, and what follows it.
pub fn number<'f>(text: &'f [u8]) -> Option<(u32, &'f [u8])>
    ensures { MatchOption result (Numberless text.now)
        (λ p. Numbered p.0 p.1.now text.now × OnlyNumber p.0 p.1.now text.now) }
{
    // No number has more than 7 digits, so 8 bytes tell.
    let (front, _) = text.split_at(text.len().min(8));
    let count = digits(front);
    if count == 0 || count > 7 {
        return None;
    }
    if count > 1 && text[0] == b'0' {
        return None;
    }
    let (digits, rest) = text.split_at(count);
    Some((value(digits), rest))
}
