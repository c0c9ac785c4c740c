//! A packet that is offered to a part, and the rows of the refusal table that reading tests.

ghost use Rattle.std.specs.Prelude.{◌≡◌, ◌+◌, ◌≤◌, cond, Ok, Err};
ghost use Rattle.formats.specs.Meaning.{part_of};
ghost use Rattle.refusals.specs.Numbers.{numbered};
ghost use Rattle.theory.specs.Packets as rules;
ghost use Rattle.packets.specs.Reading.{packet_check, reading_check};

use crate::fields::Fields;
use formats::{Mode, Part};
use kinds::GroupKind;
use refusals::Refusal;

// What a UDP datagram of 1,460 octets holds behind its header.
const MOST_OCTETS: usize = 1452;

/// A packet and the part that it is offered to. Each question is a row of the table, and tells whether the packet is refused for it.
#[derive_where(Clone, Copy)]
pub(crate) struct Offer<'a, K> {
    pub(crate) packet: Fields<'a>,
    pub(crate) part: &'a Part<K>,
}

impl<K: GroupKind> Offer<'_, K> {
    /// Refusal 4 for the part's format, then 7 to 18: the first that holds.
    pub(crate) fn check(&self) -> Result<(), Refusal>
        ensures { numbered result ≡ reading_check (part_of K.GroupKind.kind self.now.part.now) self.now.packet.octets.now }
    {
        self.part.format.check()?;
        self.check_packet()
    }

    fn check_packet(&self) -> Result<(), Refusal>
        ensures { numbered result ≡ packet_check (part_of K.GroupKind.kind self.now.part.now) self.now.packet.octets.now }
    {
        refuse_if(self.too_long(), Refusal::PacketTooLong)?;
        refuse_if(self.no_rtp(), Refusal::NotRtp)?;
        refuse_if(self.overrun(), Refusal::HeaderPastEnd)?;
        refuse_if(self.other_stream(), Refusal::OtherStream)?;
        refuse_if(self.headers_cut(), Refusal::RowHeadersCut)?;
        refuse_if(self.bad_length(), Refusal::LengthNotWhole)?;
        refuse_if(self.bad_row(), Refusal::RowOutsidePart)?;
        refuse_if(self.bad_offset(), Refusal::OffsetOutsideRow)?;
        refuse_if(self.out_of_turn(), Refusal::SegmentsOutOfOrder)?;
        refuse_if(self.data_short(), Refusal::RowDataTooShort)?;
        refuse_if(self.left_over(), Refusal::RowDataLeftOver)?;
        refuse_if(self.broken_block(), Refusal::BlockNotWhole)
    }

    /// Refusal 7: over 1,452 octets.
    fn too_long(&self) -> bool
        ensures { result ≡ rules.too_long self.now.packet.octets.now }
    {
        self.packet.octets.len() > MOST_OCTETS
    }

    /// Refusal 8: under 12 octets, or another version than 2.
    fn no_rtp(&self) -> bool
        ensures { result ≡ rules.no_rtp self.now.packet.octets.now }
    {
        self.packet.octets.len() < 12 || self.packet.version() != 2
    }

    /// Refusal 9: sources, extension and padding pass the end, or padding is counted as 0.
    fn overrun(&self) -> bool
        ensures { result ≡ rules.overrun self.now.packet.octets.now }
    {
        self.packet.octets.len() < self.packet.payload_start() + self.packet.padding()
            || self.packet.padded() && self.packet.padding() == 0
    }

    /// Refusal 10: another payload type, SSRC or timestamp.
    fn other_stream(&self) -> bool
        ensures { result ≡ rules.other_stream (part_of K.GroupKind.kind self.now.part.now) self.now.packet.octets.now }
    {
        self.packet.payload_type() != self.part.format.payload_type
            || self.packet.ssrc() != self.part.format.ssrc
            || self.packet.timestamp() != self.part.timestamp
    }

    /// Refusal 11: the sample row data headers are cut, or a third one says that another follows.
    fn headers_cut(&self) -> bool
        ensures { result ≡ rules.headers_cut self.now.packet.octets.now }
    {
        let end = self.packet.payload_end();
        let first = self.packet.row_header(0);
        let second = self.packet.row_header(1);
        let third = self.packet.row_header(2);
        end < second.start()
            || first.continues() && end < third.start()
            || first.continues()
                && second.continues()
                && (end < self.packet.row_header(3).start() || third.continues())
    }

    /// Refusal 16: the lengths exceed what follows the headers.
    fn data_short(&self) -> bool
        ensures { result ≡ rules.data_short self.now.packet.octets.now }
    {
        self.packet.data_octets() < self.packet.all_lengths()
    }

    /// Refusal 17: octets are left over, without the marker.
    fn left_over(&self) -> bool
        ensures { result ≡ rules.left_over self.now.packet.octets.now }
    {
        self.packet.all_lengths() < self.packet.data_octets() && !self.packet.marker()
    }

    /// Refusal 18: in block mode the lengths are together no multiple of 180, without the marker.
    fn broken_block(&self) -> bool
        ensures { result ≡ rules.broken_block (part_of K.GroupKind.kind self.now.part.now) self.now.packet.octets.now }
    {
        self.part.format.mode == Mode::Block as u8
            && !self.packet.marker()
            && !self.packet.all_lengths().is_multiple_of(180)
    }
}

fn refuse_if(holds: bool, refusal: Refusal) -> Result<(), Refusal>
    ensures { result ≡ cond holds (Err refusal) (Ok tt) }
{
    if holds { Err(refusal) } else { Ok(()) }
}
