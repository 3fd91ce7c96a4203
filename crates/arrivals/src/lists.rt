ghost use Rattle.std.specs.Prelude.{◌≡◌, ◌<◌, ◌≤◌, length, MatchResult, Some};
ghost use Rattle.std.specs.List.{AllByRecursion};
ghost use Rattle.forms.specs.Reading.{left, Says, Reading, Unread};
ghost use Rattle.forms.specs.Stages.{stage_said, StageFits};
ghost use Rattle.arrivals.specs.Lines.{EntryFits};
ghost use Rattle.arrivals.specs.Lists.{stage_ended, entry_ended, entries_written, list_written, ListFits, list_said, most_bytes, Shown, EntriesRefused, ListRefused, number};
ghost use Rattle.arrivals.specs.Messages.{line_reason, list_fault_line};
ghost use Rattle.arrivals.specs.declared.lists.LineFault.TheVariants.{Form};
ghost use Rattle.arrivals.specs.declared.lists.ListFault.TheVariants.{NoMemory};

use crate::lines;
use crate::lines::Entry;
use forms::cursor::{Cursor, FormFault};
use forms::stages::StageForm;
use std::alloc::{AllocFailed, Global};
use std::fmt;

const MOST_BYTES: usize = 16_384;

// A stage, and what comes to it, in the order of the lines.
#[derive(Drop)]
pub struct ArrivalList<'f> {
    pub stage: StageForm<'f>,
    pub entries: Vec<Entry>,
}

// Why a line is not one of an arrival list.
#[derive(Clone, Copy, PartialEq, Eq, Debug)]
pub enum LineFault {
    // the text is empty
    NoStage,
    // no byte 10 follows
    Unended,
    // the line is ended, and is not of its form
    Form(FormFault),
}

impl From<FormFault> for LineFault {
    ghost from_gives = { λ f r. r ≡ Form f };

    fn from(fault: FormFault) -> LineFault {
        LineFault::Form(fault)
    }
}

// The words that tell why a line does not belong in an arrival list.
impl fmt::Display for LineFault {
    ghost output = { λ e. Some (line_reason e) };

    fn fmt<W: fmt::Write>(&self, f: &mut fmt::Formatter<W>) -> fmt::Result {
        match *self {
            Self::NoStage => write!(f, "no stage"),
            Self::Unended => write!(f, "no end of line"),
            Self::Form(fault) => write!(f, "{fault}"),
        }
    }
}

// Why a text is no arrival list.
#[derive(Clone, Copy, PartialEq, Eq, Debug)]
pub enum ListFault {
    // over 16,384 bytes
    TooLong,
    // the first line that is not of its form; the lines are numbered from 1
    Line { line: usize, fault: LineFault },
    NoMemory,
}

impl<T: Drop> From<AllocFailed<T>> for ListFault {
    ghost from_gives = { λ _ r. r ≡ NoMemory };

    fn from(_refused: AllocFailed<T>) -> ListFault {
        ListFault::NoMemory
    }
}

impl ListFault {
    // The number that tells the fault.
    pub fn number(&self) -> u32
        ensures { result ≡ number self.now }
    {
        match self {
            Self::TooLong => 15,
            Self::Line { .. } => 16,
            Self::NoMemory => 0,
        }
    }
}

// The line that tells why a text is no arrival list.
impl fmt::Display for ListFault {
    ghost output = { λ e. Some (list_fault_line e) };

    fn fmt<W: fmt::Write>(&self, f: &mut fmt::Formatter<W>) -> fmt::Result {
        match *self {
            Self::TooLong => write!(f, "refused 15: over 16384 bytes"),
            Self::Line { line, fault } => write!(f, "line {line} refused 16: {fault}"),
            Self::NoMemory => write!(f, "out of memory"),
        }
    }
}

// The stage of the line that is next, which is the first.
fn stage_line<'f>(cursor: &mut Cursor<'f>) -> Result<StageForm<'f>, LineFault>
    ensures { MatchResult result (λ s. Reading StageFits stage_ended (left cursor.old) (left cursor.new) (stage_said s))
        (λ e. Unread StageFits stage_ended (left cursor.old) × Shown e (left cursor.old)) }
{
    if cursor.rest.is_empty() {
        return Err(LineFault::NoStage);
    }
    let line = cursor.line().ok_or(LineFault::Unended)?;
    Ok(lines::read_stage_line(line)?)
}

// The entry of the line that is next, of which some byte is there.
// Not one function with `stage_line`: a reader passed in would need its promise as a `requires`, no plainer.
fn entry_line(cursor: &mut Cursor<'_>) -> Result<Entry, LineFault>
    requires { 0 < length (left cursor.old) }
    ensures { MatchResult result (λ d. Reading EntryFits entry_ended (left cursor.old) (left cursor.new) d)
        (λ e. Unread EntryFits entry_ended (left cursor.old) × Shown e (left cursor.old)) }
{
    let line = cursor.line().ok_or(LineFault::Unended)?;
    Ok(lines::read_entry_line(line)?)
}

// The entries of the lines after the first.
fn read_entries(heap: Global, text: &[u8]) -> Result<Vec<Entry>, ListFault>
    requires { length text.now ≤ most_bytes }
    ensures { MatchResult result (λ es. Says (AllByRecursion EntryFits) entries_written text.now es.items)
        (λ e. EntriesRefused e text.now) }
{
    let mut cursor = Cursor { rest: text };
    let mut entries = Vec::new(heap);
    while !cursor.rest.is_empty() {
        let line = entries.len() + 2;
        let entry = entry_line(&mut cursor).map_err(|fault| ListFault::Line { line, fault })?;
        entries.push(entry)?;
    }
    Ok(entries)
}

// The list that `text` is, line by line.
pub fn read_list<'f>(heap: Global, text: &'f [u8]) -> Result<ArrivalList<'f>, ListFault>
    ensures { MatchResult result (λ a.
        (length text.now ≤ most_bytes) × Says ListFits list_written text.now (list_said a))
        (λ e. ListRefused e text.now) }
{
    if text.len() > MOST_BYTES {
        return Err(ListFault::TooLong);
    }
    let mut cursor = Cursor { rest: text };
    let stage = stage_line(&mut cursor).map_err(|fault| ListFault::Line { line: 1, fault })?;
    let entries = read_entries(heap, cursor.rest)?;
    Ok(ArrivalList { stage, entries })
}
