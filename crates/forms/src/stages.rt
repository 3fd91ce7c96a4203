ghost use Rattle.std.specs.Prelude.{Some, ◌≡◌, ℕ, List, ◌++◌, codes, Option as OptionOf, MatchResult, ◌≢◌};
ghost use Rattle.std.specs.Option.{option_map};
ghost use Rattle.forms.specs.Forms.{Word};
ghost use Rattle.forms.specs.Reading.{left, ReadsWord, Says, SaysNothing, Reads};
ghost use Rattle.forms.specs.Stages.{core_word, last_text, LowEach, core_text, LowCore, piece_text, travel_text, LowTravel, Moveless, week_text, WordWeek, stage_said, StageFits, stage_rest};
ghost use Rattle.forms.specs.Shown.{text_of, core_line, stage_shown};

use crate::cursor::{Cursor, FormFault};
use std::fmt;

// How a stage works.
#[derive(Clone, Copy, PartialEq, Eq, Debug)]
pub enum CoreForm {
    // `(machine k p)`: k places, p minutes
    Machine { places: u32, minutes: u32 },
    // `(oven T B p)`: a cycle of T minutes, B places, p minutes to bake
    Oven { cycle: u32, places: u32, bake: u32 },
}

// What the line of a stage says.
#[derive(Clone, Copy)]
pub struct StageForm<'f> {
    // a part of the file's bytes
    pub name: &'f [u8],
    pub core: CoreForm,
    // the minutes of `(move t)`
    pub travel: Option<u32>,
    // the name of `(week NAME)`
    pub week: Option<&'f [u8]>,
}

// A word as text, or none where it is no text.
fn text_of(word: &[u8]) -> &str
    ensures { result.now ≡ text_of word.now }
{
    str::from_utf8(word).unwrap_or("")
}

impl fmt::Display for CoreForm {
    ghost output = { λ core. Some (core_line core) };

    fn fmt<W: fmt::Write>(&self, f: &mut fmt::Formatter<W>) -> fmt::Result {
        match *self {
            CoreForm::Machine { places, minutes } => {
                write!(f, "machine of {places} places, {minutes} minutes")
            }
            CoreForm::Oven {
                cycle,
                places,
                bake,
            } => write!(f, "oven of {places} places, cycle {cycle}, bake {bake}"),
        }
    }
}

// What the station is made of.
impl fmt::Display for StageForm<'_> {
    ghost output = { λ stage. Some (stage_shown stage) };

    fn fmt<W: fmt::Write>(&self, f: &mut fmt::Formatter<W>) -> fmt::Result {
        write!(f, "station {}: {}", text_of(self.name), self.core)?;
        if let Some(minutes) = self.travel {
            write!(f, ", move {minutes}")?;
        }
        if let Some(week) = self.week {
            write!(f, ", week {}", text_of(week))?;
        }
        Ok(())
    }
}

// The word that a core begins with.
#[derive(Clone, Copy)]
enum CoreWord {
    Machine,
    Oven,
}

impl TryFrom<&[u8]> for CoreWord {
    type Error = FormFault;

    ghost try_from_gives = { λ word r. ReadsWord core_word word.now r };

    fn try_from(word: &[u8]) -> Result<CoreWord, FormFault> {
        match word {
            b"machine" => Ok(CoreWord::Machine),
            b"oven" => Ok(CoreWord::Oven),
            _ => Err(FormFault::UnknownWord),
        }
    }
}

impl<'f> Cursor<'f> {
    // What follows a space, the opening of the form `name` and a space.
    #[tactic(auto, using(std::proofs::lemmas::List::append_cancel_left))]
    fn piece(mut self, name: &[u8]) -> Result<Cursor<'f>, FormFault>
        requires { Word name.now }
        ensures { MatchResult result (λ after. left self.entry ≡ piece_text name.now (left after))
            (λ _. (x : List ℕ) → left self.entry ≢ piece_text name.now x) }
    {
        self.expect(' ')?;
        self.opening(name)?;
        self.expect(' ')?;
        Ok(self)
    }

    // The last N numbers of a form, each but the first after a space, and its bracket.
    pub fn last<const N: usize>(&mut self) -> Result<[u32; N], FormFault>
        ensures { Reads (LowEach N) last_text self.old self.new result }
    {
        let mut numbers = [0; N];
        for (at, number) in numbers.iter_mut().enumerate() {
            if at > 0 {
                self.expect(' ')?;
            }
            *number = self.number()?;
        }
        self.expect(')')?;
        Ok(numbers)
    }

    // The core of a stage, in its brackets.
    pub fn core(&mut self) -> Result<CoreForm, FormFault>
        ensures { Reads LowCore core_text self.old self.new result }
    {
        self.expect('(')?;
        let word = CoreWord::try_from(self.word()?)?;
        self.expect(' ')?;
        match word {
            CoreWord::Machine => {
                let [places, minutes] = self.last::<2>()?;
                Ok(CoreForm::Machine { places, minutes })
            }
            CoreWord::Oven => {
                let [cycle, places, bake] = self.last::<3>()?;
                Ok(CoreForm::Oven {
                    cycle,
                    places,
                    bake,
                })
            }
        }
    }

    // The minutes of `(move t)`, if that is next. No second move may follow.
    fn travel(&mut self) -> Result<Option<u32>, FormFault>
        ensures { MatchResult result
            (λ t. LowTravel t × (left self.old ≡ travel_text t (left self.new))
            × ((u : OptionOf ℕ) (x : List ℕ) → LowTravel u → Moveless x
            → left self.old ≡ travel_text u x → (t ≡ u) × (left self.new ≡ x)))
            (λ _. (u : OptionOf ℕ) (x : List ℕ) → LowTravel u → Moveless x → left self.old ≢ travel_text u x) }
    {
        // That there is no move is no fault, so its fault is not handed on.
        let Ok(after) = self.piece(b"move") else {
            return Ok(None);
        };
        *self = after;
        let [minutes] = self.last::<1>()?;
        Ok(Some(minutes))
    }

    // The word of `(week NAME)`, if that is next. A bracket follows.
    fn week(&mut self) -> Result<Option<&'f [u8]>, FormFault>
        ensures { let bracketed = λ (x : List ℕ). codes ")" ++ x in MatchResult result
            (λ w. let name = option_map (λ x. x.now) w in
            WordWeek name × (left self.old ≡ week_text name (left self.new))
            × ((u : OptionOf (List ℕ)) (x : List ℕ) → WordWeek u → left self.old ≡ week_text u (bracketed x)
            → (name ≡ u) × (left self.new ≡ bracketed x)))
            (λ _. (u : OptionOf (List ℕ)) (x : List ℕ) → WordWeek u → left self.old ≢ week_text u (bracketed x)) }
    {
        // That there is no week is no fault, so its fault is not handed on.
        let Ok(after) = self.piece(b"week") else {
            return Ok(None);
        };
        *self = after;
        let name = self.word()?;
        self.expect(')')?;
        Ok(Some(name))
    }

    // What follows the word `stage`, to the end of the line.
    pub fn stage(&mut self) -> Result<StageForm<'f>, FormFault>
        ensures { MatchResult result (λ s. Says StageFits stage_rest (left self.old) (stage_said s))
            (λ _. SaysNothing StageFits stage_rest (left self.old)) }
    {
        self.expect(' ')?;
        let name = self.word()?;
        self.expect(' ')?;
        let core = self.core()?;
        let travel = self.travel()?;
        let week = self.week()?;
        self.finish()?;
        Ok(StageForm {
            name,
            core,
            travel,
            week,
        })
    }
}
