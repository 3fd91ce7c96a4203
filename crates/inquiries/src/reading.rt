ghost use Rattle.std.specs.Prelude.{◌≡◌, ℕ, List, ◌∷◌, ◌++◌, Ok, Err, Some, codes, MatchResult, ◌≢◌};
ghost use Rattle.forms.specs.Forms.{Low};
ghost use Rattle.forms.specs.Reading.{left, Says, SaysNothing, Reads, Reading, Unread};
ghost use Rattle.forms.specs.Stages.{spaced};
ghost use Rattle.inquiries.specs.Names.{AnyName};
ghost use Rattle.inquiries.specs.Inquiry.{control_text, stages_text, cards_text, CountsFit, counts_of, InquiryFits, inquiry_written, inquiry_said, Stopped, inquiry_fault_line};

use crate::counts::Counts;
use crate::names::ControlName;
use forms::cursor::{Cursor, FormFault};
use std::fmt;

// A control, how many stages the line has, and the counts.
#[derive(Clone, Copy)]
pub struct Inquiry {
    pub control: ControlName,
    pub stages: u32,
    pub counts: Counts,
}

// Why a text is no inquiry: the first line that is not of its form, and why; after the third nothing may follow.
#[derive(Clone, Copy, PartialEq, Eq, Debug)]
pub struct InquiryFault {
    pub line: u32,
    pub fault: FormFault,
}

impl fmt::Display for InquiryFault {
    ghost output = { λ e. Some (inquiry_fault_line e) };

    fn fmt<W: fmt::Write>(&self, f: &mut fmt::Formatter<W>) -> fmt::Result {
        write!(f, "line {} refused 16: {}", self.line, self.fault)
    }
}

// Goes past the last bracket of a line and the byte that ends it.
fn line_end(cursor: &mut Cursor<'_>) -> Result<(), FormFault>
    ensures { MatchResult result (λ _. left cursor.old ≡ codes ")\n" ++ left cursor.new)
        (λ _. (x : List ℕ) → left cursor.old ≡ codes ")\n" ++ x → ⊥) }
{
    cursor.expect(')')?;
    cursor.expect('\n')?;
    Ok(())
}

// The control of a line `(control WORD)`.
fn control_line(cursor: &mut Cursor<'_>) -> Result<ControlName, FormFault>
    ensures { Reads AnyName control_text cursor.old cursor.new result }
{
    cursor.opening(b"control")?;
    cursor.expect(' ')?;
    let word = cursor.word()?;
    line_end(cursor)?;
    ControlName::try_from(word)
}

// The number of a line `(stages NUMBER)`.
fn stages_line(cursor: &mut Cursor<'_>) -> Result<u32, FormFault>
    ensures { Reads Low stages_text cursor.old cursor.new result }
{
    cursor.opening(b"stages")?;
    cursor.expect(' ')?;
    let stages = cursor.number()?;
    line_end(cursor)?;
    Ok(stages)
}

// The counts that follow, each after a space. A bracket follows.
fn spaced_counts(cursor: &mut Cursor<'_>) -> Result<Counts, FormFault>
    ensures { MatchResult result (λ c.
        CountsFit (counts_of c) × (left cursor.old ≡ spaced (counts_of c) ++ left cursor.new)
        × ((ns x : List ℕ) → CountsFit ns → left cursor.old ≡ spaced ns ++ (41 ∷ x)
        → (counts_of c ≡ ns) × (left cursor.new ≡ 41 ∷ x)))
        (λ _. (ns x : List ℕ) → CountsFit ns → left cursor.old ≢ spaced ns ++ (41 ∷ x)) }
{
    // The count is kept beside the loop, as `Counts` keeps it: a vector of fixed capacity is not `Copy`.
    let mut values = [0; 16];
    let mut count = 0;
    for value in &mut values {
        if !cursor.accept(' ') {
            break;
        }
        *value = cursor.number()?;
        count += 1;
    }
    if count == 0 {
        return Err(FormFault::Layout);
    }
    Ok(Counts { values, count })
}

// The counts of a line `(cards NUMBER ..)`.
fn cards_line(cursor: &mut Cursor<'_>) -> Result<Counts, FormFault>
    ensures { MatchResult result (λ c. Reading CountsFit cards_text (left cursor.old) (left cursor.new) (counts_of c))
        (λ _. Unread CountsFit cards_text (left cursor.old)) }
{
    cursor.opening(b"cards")?;
    let counts = spaced_counts(cursor)?;
    line_end(cursor)?;
    Ok(counts)
}

// The fault, at that line.
fn at_line<T: Drop>(line: u32, read: Result<T, FormFault>) -> Result<T, InquiryFault>
    ensures { MatchResult result (λ v. read ≡ Ok v) (λ e. (e.line ≡ line) × (read ≡ Err e.fault)) }
{
    read.map_err(|fault| InquiryFault { line, fault })
}

// The inquiry that `text` is, line by line.
pub fn read_inquiry(text: &[u8]) -> Result<Inquiry, InquiryFault>
    ensures { MatchResult result (λ i. Says InquiryFits inquiry_written text.now (inquiry_said i))
        (λ e. SaysNothing InquiryFits inquiry_written text.now × Stopped e.line text.now) }
{
    let mut cursor = Cursor { rest: text };
    let control = at_line(1, control_line(&mut cursor))?;
    let stages = at_line(2, stages_line(&mut cursor))?;
    let counts = at_line(3, cards_line(&mut cursor))?;
    at_line(4, cursor.end())?;
    Ok(Inquiry {
        control,
        stages,
        counts,
    })
}
