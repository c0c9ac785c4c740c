//! A picture format, as it is sent.

ghost use Rattle.std.specs.Prelude.{◌≡◌, ◌≤◌, ◌==◌};
ghost use Rattle.refusals.specs.Numbers.{numbered};
ghost use Rattle.theory.specs.Formats.{layout_of, row_groups as unit_row_groups, scan_allowed, mode_allowed, lawful_format};
ghost use Rattle.formats.specs.Meaning.{format_of, format_check};

use crate::mode::Mode;
use crate::scan::Scan;
use crate::sizes::{divided_up, times};
use kinds::GroupKind;
use refusals::Refusal;

/// A kind of group, and plain numbers. Each call that is given a format tests it again.
#[derive(Clone, Copy)]
pub struct Format<K> {
    pub kind: K,
    pub depth: u8,
    pub width: u16,
    pub height: u16,
    // Numbers, since callers fill them in: one that is no `Scan` or no `Mode` is refused with 4, and a narrower type would ask more of them.
    pub scan: u8,
    pub mode: u8,
    pub payload_type: u8,
    pub ssrc: u32,
}

impl<K: GroupKind> Format<K> {
    /// Whether the format is inside the limits: refusal 4 where it is not.
    pub fn check(&self) -> Result<(), Refusal>
        ensures { numbered result ≡ format_check (format_of K.GroupKind.kind self.now) }
    {
        if self.is_lawful() {
            Ok(())
        } else {
            Err(Refusal::FormatOutsideLimits)
        }
    }

    /// Octets of a group; 0 where the kind does not have the depth.
    pub fn group_octets(&self) -> usize
        ensures { result ≡ (layout_of (format_of K.GroupKind.kind self.now)).octets }
    {
        self.kind.octets(self.depth)
    }

    /// Columns of a group; 0 where the kind does not have the depth.
    pub fn group_columns(&self) -> usize
        ensures { result ≡ (layout_of (format_of K.GroupKind.kind self.now)).columns }
    {
        self.kind.columns(self.depth)
    }

    /// Groups of a unit row, which is one row of groups.
    pub fn row_groups(&self) -> usize
        ensures value { result ≡ unit_row_groups (format_of K.GroupKind.kind self.now) }
        ensures bound { result ≤ 65535 }
    {
        divided_up(usize::from(self.width), self.group_columns())
    }

    pub(crate) fn is_lawful(&self) -> bool
        ensures { result ≡ lawful_format (format_of K.GroupKind.kind self.now) }
    {
        self.group_octets() > 0
            && (1..=32767).contains(&self.width)
            && (1..=32767).contains(&self.height)
            && (96..=127).contains(&self.payload_type)
            && self.is_scan_lawful()
            && self.is_mode_lawful()
    }

    /// Whether every row is sent in one part.
    pub(crate) fn is_progressive(&self) -> bool
        ensures { result ≡ (self.now.scan == 0) }
    {
        self.scan == Scan::Progressive as u8
    }

    // Two fields want two rows at least, and groups of one row.
    fn is_scan_lawful(&self) -> bool
        ensures { result ≡ scan_allowed (format_of K.GroupKind.kind self.now) }
    {
        match Scan::try_from(self.scan) {
            Ok(Scan::Progressive) => true,
            Ok(Scan::Interlaced | Scan::Segmented) => {
                self.height >= 2 && self.kind.group_rows() == 1
            }
            Err(_) => false,
        }
    }

    // Blocks want groups that fill 180 octets, and unit rows of 630 octets at least.
    fn is_mode_lawful(&self) -> bool
        ensures { result ≡ mode_allowed (format_of K.GroupKind.kind self.now) }
    {
        match Mode::try_from(self.mode) {
            Ok(Mode::General) => true,
            Ok(Mode::Block) => {
                let octets = self.group_octets();
                octets > 0 && 180 % octets == 0 && times(self.row_groups(), octets) >= 630
            }
            Err(_) => false,
        }
    }
}
