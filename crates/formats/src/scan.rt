//! The kinds of scan, and the number of each.

ghost use Rattle.std.specs.Prelude.{◌≡◌};
ghost use Rattle.formats.specs.Announced.{scan_of};
ghost use Rattle.formats.specs.Numbers.{scan_number, NumbersScan};

use records::Record;
use refusals::Refusal;

/// How the rows of a frame are sent: all in one part, or every second one in each of two.
#[derive(Clone, Copy, Debug, PartialEq, Eq)]
pub enum Scan {
    Progressive = 0,
    Interlaced = 1,
    Segmented = 2,
}

/// The scan with a number: refusal 4 where there is none.
impl TryFrom<u8> for Scan {
    type Error = Refusal;

    ghost try_from_gives = { NumbersScan };

    fn try_from(number: u8) -> Result<Scan, Refusal> {
        match number {
            0 => Ok(Scan::Progressive),
            1 => Ok(Scan::Interlaced),
            2 => Ok(Scan::Segmented),
            _ => Err(Refusal::FormatOutsideLimits),
        }
    }
}

impl From<Scan> for u8 {
    ghost from_gives = { λ scan number. number ≡ scan_number scan };

    fn from(scan: Scan) -> u8 {
        scan as u8
    }
}

/// The scan that a record announces.
impl From<&Record> for Scan {
    ghost from_gives = { λ r scan. scan_number scan ≡ scan_of r.now };

    fn from(record: &Record) -> Scan {
        match (record.interlace, record.segmented) {
            (false, _) => Scan::Progressive,
            (true, false) => Scan::Interlaced,
            (true, true) => Scan::Segmented,
        }
    }
}
