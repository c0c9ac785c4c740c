//! The rows of the refusal table on sample row data headers, which hold of a packet where they hold of one of its headers.

ghost use Rattle.std.specs.Prelude.{◌≡◌, ◌<◌, ◌≤◌};
ghost use Rattle.formats.specs.Meaning.{part_of};
ghost use Rattle.theory.specs.Packets as rules;
ghost use Rattle.packets.specs.Headers.{length_breaks, row_breaks, offset_breaks, turn_breaks, end_group};

use crate::offer::Offer;
use kinds::GroupKind;

impl<K: GroupKind> Offer<'_, K> {
    /// Refusal 12: a length is no multiple of the group's octets, or is 0 beside another header.
    pub(crate) fn bad_length(&self) -> bool
        ensures { result ≡ rules.bad_length (part_of K.GroupKind.kind self.now.part.now) self.now.packet.octets.now }
    {
        (0..self.packet.headers()).any(|i| self.length_breaks(i))
    }

    /// Refusal 13: a row is of another field, beyond the part, or no multiple of the group's rows.
    pub(crate) fn bad_row(&self) -> bool
        ensures { result ≡ rules.bad_row (part_of K.GroupKind.kind self.now.part.now) self.now.packet.octets.now }
    {
        (0..self.packet.headers()).any(|i| self.row_breaks(i))
    }

    /// Refusal 14: an offset is no multiple of the group's columns or not below the width, or a segment passes its row's last group.
    pub(crate) fn bad_offset(&self) -> bool
        ensures { result ≡ rules.bad_offset (part_of K.GroupKind.kind self.now.part.now) self.now.packet.octets.now }
    {
        (0..self.packet.headers()).any(|i| self.offset_breaks(i))
    }

    /// Refusal 15: a header is on a smaller row than the one before, or on the same row before that one's end.
    pub(crate) fn out_of_turn(&self) -> bool
        ensures { result ≡ rules.out_of_turn (part_of K.GroupKind.kind self.now.part.now) self.now.packet.octets.now }
    {
        (0..self.packet.headers() - 1).any(|i| self.turn_breaks(i))
    }

    fn length_breaks(&self, i: u8) -> bool
        ensures { result ≡ length_breaks (part_of K.GroupKind.kind self.now.part.now) self.now.packet.octets.now i }
    {
        let length = usize::from(self.packet.row_header(i).length());
        !length.is_multiple_of(self.part.format.group_octets())
            || self.packet.headers() > 1 && length == 0
    }

    fn row_breaks(&self, i: u8) -> bool
        ensures { result ≡ row_breaks (part_of K.GroupKind.kind self.now.part.now) self.now.packet.octets.now i }
    {
        let header = self.packet.row_header(i);
        let row = usize::from(header.row());
        header.field() != self.part.field
            || row >= self.part.rows()
            || !row.is_multiple_of(self.part.format.kind.group_rows())
    }

    fn offset_breaks(&self, i: u8) -> bool
        ensures { result ≡ offset_breaks (part_of K.GroupKind.kind self.now.part.now) self.now.packet.octets.now i }
    {
        let offset = self.packet.row_header(i).offset();
        !usize::from(offset).is_multiple_of(self.part.format.group_columns())
            || offset >= self.part.format.width
            || self.end_group(i) > self.part.format.row_groups()
    }

    // Of header i and the one behind it.
    fn turn_breaks(&self, i: u8) -> bool
        requires { i < 255 }
        ensures { result ≡ turn_breaks (part_of K.GroupKind.kind self.now.part.now) self.now.packet.octets.now i }
    {
        let row = self.packet.row_header(i).row();
        let next_row = self.packet.row_header(i + 1).row();
        next_row < row || next_row == row && self.first_group(i + 1) < self.end_group(i)
    }

    fn first_group(&self, i: u8) -> usize
        ensures value { result ≡ rules.first_group (part_of K.GroupKind.kind self.now.part.now) self.now.packet.octets.now i }
        ensures bound { result ≤ 65535 }
    {
        let offset = usize::from(self.packet.row_header(i).offset());
        offset
            .checked_div(self.part.format.group_columns())
            .unwrap_or(0)
    }

    // The group behind the last one of segment i.
    fn end_group(&self, i: u8) -> usize
        ensures { result ≡ end_group (part_of K.GroupKind.kind self.now.part.now) self.now.packet.octets.now i }
    {
        let length = usize::from(self.packet.row_header(i).length());
        self.first_group(i)
            + length
                .checked_div(self.part.format.group_octets())
                .unwrap_or(0)
    }
}
