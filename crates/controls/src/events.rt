ghost use Rattle.std.specs.Prelude.{Some};
ghost use Rattle.controls.specs.Words.{event_words, wait_words};

use stations::numbers::StageNo;
use std::fmt;

// What happens to each part. The delivery is the default, since it is the one event that every line has.
#[derive(Clone, Copy, PartialEq, Eq, Debug, Default)]
pub enum Event {
    // The call is passed on to the stage.
    Pass(StageNo),
    // The stage is given the part to work on.
    Release(StageNo),
    // The stage is done with the part.
    Completion(StageNo),
    // The part is handed out.
    #[default]
    Delivery,
}

impl fmt::Display for Event {
    ghost output = { λ e. Some (event_words e) };

    fn fmt<W: fmt::Write>(&self, f: &mut fmt::Formatter<W>) -> fmt::Result {
        match *self {
            Event::Pass(StageNo(stage)) => write!(f, "pass {stage}"),
            Event::Release(StageNo(stage)) => write!(f, "release {stage}"),
            Event::Completion(StageNo(stage)) => write!(f, "completion {stage}"),
            Event::Delivery => write!(f, "the delivery"),
        }
    }
}

// What an event of a part waits for.
#[derive(Clone, Copy, PartialEq, Eq, Debug)]
pub enum Wait {
    // The call of the part.
    Call,
    // An event of the part so many parts earlier: the source and its lag.
    After(Event, u32),
}

impl fmt::Display for Wait {
    ghost output = { λ w. Some (wait_words w) };

    fn fmt<W: fmt::Write>(&self, f: &mut fmt::Formatter<W>) -> fmt::Result {
        match *self {
            Wait::Call => write!(f, "the call"),
            Wait::After(source, lag) if lag > 0 => write!(f, "{source} of the part {lag} before"),
            Wait::After(source, _) => write!(f, "{source}"),
        }
    }
}
