ghost use Rattle.std.specs.Prelude.{◌≡◌, Some};
ghost use Rattle.forms.specs.Reading.{ReadsWord};
ghost use Rattle.inquiries.specs.Names.{control_name};

use forms::cursor::FormFault;
use std::fmt;

// The controls, by their names.
#[derive(Clone, Copy, PartialEq, Eq, Debug)]
pub enum ControlName {
    Base,
    Kanban,
    General,
    Extended,
}

impl TryFrom<&[u8]> for ControlName {
    type Error = FormFault;

    ghost try_from_gives = { λ word r. ReadsWord control_name word.now r };

    fn try_from(word: &[u8]) -> Result<ControlName, FormFault> {
        match word {
            b"base" => Ok(ControlName::Base),
            b"kanban" => Ok(ControlName::Kanban),
            b"general" => Ok(ControlName::General),
            b"extended" => Ok(ControlName::Extended),
            _ => Err(FormFault::UnknownWord),
        }
    }
}

impl ControlName {
    // The control's name, beside the `Display`, since it cannot fail.
    pub fn word(self) -> &'static str
        ensures { result.now ≡ control_name self }
    {
        match self {
            ControlName::Base => "base",
            ControlName::Kanban => "kanban",
            ControlName::General => "general",
            ControlName::Extended => "extended",
        }
    }
}

impl fmt::Display for ControlName {
    ghost output = { λ k. Some (control_name k) };

    fn fmt<W: fmt::Write>(&self, f: &mut fmt::Formatter<W>) -> fmt::Result {
        f.write_str(self.word())
    }
}
