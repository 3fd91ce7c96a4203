ghost use Rattle.std.specs.Prelude.{MatchResult};
ghost use Rattle.forms.specs.Reading.{ReadsWord, Says, SaysNothing};
ghost use Rattle.forms.specs.Stages.{stage_said, StageFits};
ghost use Rattle.arrivals.specs.Lines.{entry_word, stage_written, entry_written, EntryFits};

use forms::cursor::{Cursor, FormFault};
use forms::stages::StageForm;

// What a line after the first says.
#[derive(Clone, Copy, PartialEq, Eq, Debug)]
pub enum Entry {
    // a part arrives at that minute
    Arrive(u32),
    // the station is made fresh
    Fresh,
}

// The word that an entry begins with.
#[derive(Clone, Copy)]
enum EntryWord {
    Arrive,
    Fresh,
}

impl TryFrom<&[u8]> for EntryWord {
    type Error = FormFault;

    ghost try_from_gives = { λ word r. ReadsWord entry_word word.now r };

    fn try_from(word: &[u8]) -> Result<EntryWord, FormFault> {
        match word {
            b"arrive" => Ok(EntryWord::Arrive),
            b"fresh" => Ok(EntryWord::Fresh),
            _ => Err(FormFault::UnknownWord),
        }
    }
}

// The stage of a line `(stage NAME CORE ..)`.
pub fn read_stage_line<'f>(line: &'f [u8]) -> Result<StageForm<'f>, FormFault>
    ensures { MatchResult result (λ s. Says StageFits stage_written line.now (stage_said s))
        (λ _. SaysNothing StageFits stage_written line.now) }
{
    let mut cursor = Cursor { rest: line };
    cursor.opening(b"stage")?;
    cursor.stage()
}

// The entry of a line `(arrive MINUTE)` or `(fresh)`.
pub fn read_entry_line(line: &[u8]) -> Result<Entry, FormFault>
    ensures { MatchResult result (λ d. Says EntryFits entry_written line.now d)
        (λ _. SaysNothing EntryFits entry_written line.now) }
{
    let mut cursor = Cursor { rest: line };
    cursor.expect('(')?;
    match EntryWord::try_from(cursor.word()?)? {
        EntryWord::Arrive => {
            cursor.expect(' ')?;
            let [minute] = cursor.last::<1>()?;
            cursor.end()?;
            Ok(Entry::Arrive(minute))
        }
        EntryWord::Fresh => {
            cursor.finish()?;
            Ok(Entry::Fresh)
        }
    }
}
