//! One progressive frame, one field, or one segment of a progressive segmented frame.

ghost use Rattle.std.specs.Prelude.{◌≡◌, ◌*◌, ◌≤◌};
ghost use Rattle.refusals.specs.Numbers.{numbered};
ghost use Rattle.theory.specs.Formats.{rows as rows_of, unit_rows, groups as groups_of, map_octets, plane_width, plane_height, lawful_field};
ghost use Rattle.formats.specs.Frames.{plane_area};
ghost use Rattle.formats.specs.Meaning.{part_of, part_check};

use crate::format::Format;
use crate::sizes::{divided_up, times};
use kinds::GroupKind;
use refusals::Refusal;

/// A part of a stream: its format, its RTP timestamp, and its field (0 in a progressive format).
#[derive(Clone, Copy)]
pub struct Part<K> {
    pub format: Format<K>,
    pub timestamp: u32,
    // A number, since callers fill it in: a field that the format does not have is refused with 5.
    pub field: u8,
}

impl<K: GroupKind> Part<K> {
    /// Whether the format is inside the limits and has the field: refusal 4, then 5.
    pub fn check(&self) -> Result<(), Refusal>
        ensures { numbered result ≡ part_check (part_of K.GroupKind.kind self.now) }
    {
        self.format.check()?;
        if self.has_field() {
            Ok(())
        } else {
            Err(Refusal::NoSuchField)
        }
    }

    fn has_field(&self) -> bool
        ensures { result ≡ lawful_field (part_of K.GroupKind.kind self.now).format self.now.field }
    {
        self.field == 0 || self.field == 1 && !self.format.is_progressive()
    }

    /// Rows of the part: all of the frame, or every second one.
    pub fn rows(&self) -> usize
        ensures value { result ≡ rows_of (part_of K.GroupKind.kind self.now) }
        ensures bound { result ≤ 65535 }
    {
        let height = usize::from(self.format.height);
        if self.format.is_progressive() {
            height
        } else {
            (height + 1).saturating_sub(usize::from(self.field)) / 2
        }
    }

    /// Rows of groups.
    pub fn unit_rows(&self) -> usize
        ensures value { result ≡ unit_rows (part_of K.GroupKind.kind self.now) }
        ensures bound { result ≤ 65535 }
    {
        divided_up(self.rows(), self.format.kind.group_rows())
    }

    /// Groups, which are numbered across and then down.
    pub fn groups(&self) -> usize
        ensures value { result ≡ groups_of (part_of K.GroupKind.kind self.now) }
        ensures bound { result ≤ 65535 * 65535 }
    {
        times(self.format.row_groups(), self.unit_rows())
    }

    /// Octets of the arrival map: a bit for each group.
    pub fn map_octets(&self) -> usize
        ensures { result ≡ map_octets (part_of K.GroupKind.kind self.now) }
    {
        divided_up(self.groups(), 8)
    }

    /// Columns of a plane; 0 of a plane that the kind does not have, since its step is 0.
    pub fn plane_width(&self, plane: usize) -> usize
        ensures value { result ≡ plane_width (part_of K.GroupKind.kind self.now) plane }
        ensures bound { result ≤ 65535 }
    {
        let step = self.format.kind.column_step(self.format.depth, plane);
        divided_up(usize::from(self.format.width), step)
    }

    /// Rows of a plane; 0 of a plane that the kind does not have, since its step is 0.
    pub fn plane_height(&self, plane: usize) -> usize
        ensures value { result ≡ plane_height (part_of K.GroupKind.kind self.now) plane }
        ensures bound { result ≤ 65535 }
    {
        let step = self.format.kind.row_step(self.format.depth, plane);
        divided_up(self.rows(), step)
    }

    /// Samples of a plane.
    pub(crate) fn plane_area(&self, plane: usize) -> usize
        ensures value { result ≡ plane_area (part_of K.GroupKind.kind self.now) plane }
        ensures bound { result ≤ 65535 * 65535 }
    {
        times(self.plane_width(plane), self.plane_height(plane))
    }
}
