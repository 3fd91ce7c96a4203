ghost use Rattle.std.specs.Prelude.{◌≡◌, if◌then◌else◌, Some, Ok, Err};
ghost use Rattle.calendar.specs.declared.settings.SettingFault.TheVariants.{OffRange};
ghost use Rattle.calendar.specs.Settings.{off, told, piece_word, setting_line};

use std::fmt;

// The pieces that a station is made of.
#[derive(Clone, Copy, PartialEq, Eq, Debug)]
pub enum Piece {
    Machine,
    Oven,
    Move,
    Week,
}

impl Piece {
    // The word for the piece, beside the `Display`, since it cannot fail.
    pub fn word(self) -> &'static str
        ensures { result.now ≡ piece_word self }
    {
        match self {
            Piece::Machine => "machine",
            Piece::Oven => "oven",
            Piece::Move => "move",
            Piece::Week => "week",
        }
    }
}

impl fmt::Display for Piece {
    ghost output = { λ p. Some (piece_word p) };

    fn fmt<W: fmt::Write>(&self, f: &mut fmt::Formatter<W>) -> fmt::Result {
        f.write_str(self.word())
    }
}

// Why a piece cannot be made. Positions count from 1.
#[derive(Clone, Copy, PartialEq, Eq, Debug)]
pub enum SettingFault {
    // The setting at this position of the piece is off its range. Of a week each shift is a setting.
    OffRange {
        piece: Piece,
        position: u32,
        value: u32,
    },
    // The shift at this position does not begin below its end, or not after the end of the shift before.
    ShiftOrder {
        position: u32,
        begin: u32,
    },
}

impl SettingFault {
    // The number of the refusal.
    pub fn number(&self) -> u32
        ensures { result ≡ (told self.now).number }
    {
        match self {
            SettingFault::OffRange { .. } => 1,
            SettingFault::ShiftOrder { .. } => 2,
        }
    }

    // The piece that the setting belongs to.
    pub fn piece(&self) -> Piece
        ensures { result ≡ (told self.now).piece }
    {
        match self {
            SettingFault::OffRange { piece, .. } => *piece,
            SettingFault::ShiftOrder { .. } => Piece::Week,
        }
    }

    // The position of the setting in its piece.
    pub fn position(&self) -> u32
        ensures { result ≡ (told self.now).position }
    {
        match self {
            SettingFault::OffRange { position, .. } => *position,
            SettingFault::ShiftOrder { position, .. } => *position,
        }
    }

    // The value that the setting was given.
    pub fn value(&self) -> u32
        ensures { result ≡ (told self.now).value }
    {
        match self {
            SettingFault::OffRange { value, .. } => *value,
            SettingFault::ShiftOrder { begin, .. } => *begin,
        }
    }
}

impl fmt::Display for SettingFault {
    ghost output = { λ e. Some (setting_line e) };

    fn fmt<W: fmt::Write>(&self, f: &mut fmt::Formatter<W>) -> fmt::Result {
        let position = self.position();
        let piece = self.piece();
        let value = self.value();
        let reason = match self {
            SettingFault::OffRange { .. } => "off its range",
            SettingFault::ShiftOrder { .. } => "out of order",
        };
        write!(f, "setting {position} of the {piece} is {value}, {reason}")
    }
}

// Lets a setting pass that lies from `low` to `high`.
// Two numbers, no range: for a range that ran out, `contains` leaves out the end, and the promise did not close.
pub fn on_range(
    piece: Piece,
    position: u32,
    value: u32,
    low: u32,
    high: u32,
) -> Result<(), SettingFault>
    ensures { result ≡ (if off low high value then Err (OffRange piece position value) else Ok tt) }
{
    if !(low..=high).contains(&value) {
        return Err(SettingFault::OffRange {
            piece,
            position,
            value,
        });
    }
    Ok(())
}
