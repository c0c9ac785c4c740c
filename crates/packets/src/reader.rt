//! Reading a packet for a part, and its segments one by one.

ghost use Rattle.std.specs.Prelude.{◌≡◌, true, take, drop, is_ok};
ghost use Rattle.std.specs.Option.{option_map};
ghost use Rattle.formats.specs.Meaning.{part_of};
ghost use Rattle.theory.specs.Naming.{SoundNaming};
ghost use Rattle.packets.specs.Reading.{reading};
ghost use Rattle.packets.specs.Carried.{placed, carries, segment_of, outcome};
ghost use Rattle.packets.specs.Segments.{segments_of, segments_left};

use crate::fields::Fields;
use crate::offer::Offer;
use crate::packet::{Packet, Segment};
use crate::segments::Segments;
use formats::Part;
use kinds::GroupKind;
use refusals::Refusal;

impl<'a> Packet<'a> {
    /// The packet, read for a part: refusal 4 for the part's format, or one of 7 to 18.
    pub fn read<K: GroupKind>(octets: &'a [u8], part: &Part<K>) -> Result<Packet<'a>, Refusal>
        ensures answer { outcome result ≡ reading (part_of K.GroupKind.kind part.now) octets.now }
        ensures sound { is_ok result ≡ true → SoundNaming (part_of K.GroupKind.kind part.now) octets.now }
    {
        let packet = Fields { octets };
        Offer { packet, part }.check()?;
        Ok(Packet {
            octets,
            group_octets: part.format.group_octets(),
            group_columns: part.format.group_columns(),
            group_rows: part.format.kind.group_rows(),
        })
    }

    /// Whether the packet is marked as the last one of its part.
    pub fn marker(&self) -> bool
        ensures { result ≡ (carries self.now).marker }
    {
        self.fields().marker()
    }

    /// How many segments there are.
    pub fn segments(&self) -> usize
        ensures { result ≡ (carries self.now).count }
    {
        usize::from(self.fields().headers())
    }

    /// The segments, in the order of their headers.
    pub fn iter(&self) -> Segments<'a>
        ensures { segments_left result ≡ segments_of (carries self.now) }
    {
        Segments {
            packet: *self,
            index: 0,
        }
    }

    /// A segment, in the order of the headers, from 0 on.
    pub fn segment(&self, i: usize) -> Option<Segment<'a>>
        ensures { option_map placed result ≡ segment_of (carries self.now) i }
    {
        let i = u8::try_from(i).ok()?;
        let fields = self.fields();
        if i >= fields.headers() {
            return None;
        }
        let header = fields.row_header(i);
        let start = fields.data_start() + fields.lengths(i);
        let length = usize::from(header.length());
        let row = usize::from(header.row());
        let offset = usize::from(header.offset());
        Some(Segment {
            octets: piece(self.octets, start, length),
            unit_row: row.checked_div(self.group_rows).unwrap_or(0),
            first_group: offset.checked_div(self.group_columns).unwrap_or(0),
            groups: length.checked_div(self.group_octets).unwrap_or(0),
        })
    }

    fn fields(&self) -> Fields<'a>
        ensures { result.octets.now ≡ self.now.octets.now }
    {
        Fields {
            octets: self.octets,
        }
    }
}

// So many octets from `start` on, fewer where there are not so many.
fn piece(octets: &[u8], start: usize, length: usize) -> &[u8]
    ensures { result.now ≡ take length (drop start octets.now) }
{
    let behind = &octets[start.min(octets.len())..];
    &behind[..length.min(behind.len())]
}
