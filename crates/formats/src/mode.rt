//! The packing modes, and the number of each.

ghost use Rattle.std.specs.Prelude.{◌≡◌};
ghost use Rattle.formats.specs.Announced.{mode_of};
ghost use Rattle.formats.specs.Numbers.{mode_number, NumbersMode};

use records::PackingMode;
use refusals::Refusal;

/// How packets are filled: as they come, or in blocks of 180 octets. It numbers a format; what a line says is `PackingMode` of records.
#[derive(Clone, Copy, Debug, PartialEq, Eq)]
pub enum Mode {
    General = 1,
    Block = 2,
}

/// The mode with a number: refusal 4 where there is none.
impl TryFrom<u8> for Mode {
    type Error = Refusal;

    ghost try_from_gives = { NumbersMode };

    fn try_from(number: u8) -> Result<Mode, Refusal> {
        match number {
            1 => Ok(Mode::General),
            2 => Ok(Mode::Block),
            _ => Err(Refusal::FormatOutsideLimits),
        }
    }
}

impl From<Mode> for u8 {
    ghost from_gives = { λ mode number. number ≡ mode_number mode };

    fn from(mode: Mode) -> u8 {
        mode as u8
    }
}

impl From<PackingMode> for Mode {
    ghost from_gives = { λ packing mode. mode_number mode ≡ mode_of packing };

    fn from(packing: PackingMode) -> Mode {
        match packing {
            PackingMode::General => Mode::General,
            PackingMode::Block => Mode::Block,
        }
    }
}
