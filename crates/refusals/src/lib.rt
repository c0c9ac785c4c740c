//! Why a call refuses: one enum for the whole product, with the number and the words of each case.
//! Contracts speak of a refusal by its number, the one that `number_of` in `specs/` gives.
#![tactic(auto)]

ghost use Rattle.std.specs.Prelude.{◌≡◌};
ghost use Rattle.refusals.specs.Numbers.{number_of};

use std::fmt;

/// A cause for which a call is refused. A refused call leaves all memory as it was.
#[derive(Clone, Copy, Debug, PartialEq, Eq)]
pub enum Refusal {
    NoSuchPlace = 1,
    ValueTooLarge,
    MemoryTooShort,
    FormatOutsideLimits,
    NoSuchField,
    StoreOrMapUnfit,
    PacketTooLong,
    NotRtp,
    HeaderPastEnd,
    OtherStream,
    RowHeadersCut,
    LengthNotWhole,
    RowOutsidePart,
    OffsetOutsideRow,
    SegmentsOutOfOrder,
    RowDataTooShort,
    RowDataLeftOver,
    BlockNotWhole,
    BufferTooShort,
    LineTooLong,
    EntryMalformed,
    NameRepeated,
    ValueNotPermitted,
    NameMissing,
    NamesAtOdds,
}

impl Refusal {
    /// The refusal's number in the table, from 1 to 25.
    pub fn number(self) -> u8
        ensures { result ≡ number_of self }
    {
        self as u8
    }

    // What is wrong, in plain words.
    fn words(self) -> &'static str {
        match self {
            Refusal::NoSuchPlace => "the store has no such plane, row or column",
            Refusal::ValueTooLarge => "the value does not fit the store's depth",
            Refusal::MemoryTooShort => "the memory is shorter than the store needs",
            Refusal::FormatOutsideLimits => "the format is outside the limits",
            Refusal::NoSuchField => "the format has no such field",
            Refusal::StoreOrMapUnfit =>
                "the store's planes, sizes or depth are not the part's, or the arrival map is too short",
            Refusal::PacketTooLong => "the packet has over 1452 octets",
            Refusal::NotRtp => "the packet has under 12 octets, or its version is not 2",
            Refusal::HeaderPastEnd =>
                "contributing sources, extension and padding pass the packet's end, or the padding is counted as 0",
            Refusal::OtherStream => "the packet has another payload type, SSRC or timestamp",
            Refusal::RowHeadersCut =>
                "the sample row data headers are cut, or a third one announces a fourth",
            Refusal::LengthNotWhole =>
                "a length is no multiple of the group's octets, or is 0 beside another header",
            Refusal::RowOutsidePart =>
                "a row is of another field, outside the part, or no multiple of the group's rows",
            Refusal::OffsetOutsideRow =>
                "an offset is no multiple of the group's columns, or a segment passes the end of its row",
            Refusal::SegmentsOutOfOrder =>
                "a segment begins before the end of the one in front of it",
            Refusal::RowDataTooShort => "the lengths together exceed the sample row data",
            Refusal::RowDataLeftOver => "octets are left over in a packet without the marker",
            Refusal::BlockNotWhole =>
                "in block mode the lengths together are no multiple of 180, without the marker",
            Refusal::BufferTooShort => "the outgoing buffer is shorter than the packet",
            Refusal::LineTooLong => "the line has over 1024 octets",
            Refusal::EntryMalformed => "an entry is malformed",
            Refusal::NameRepeated => "a known name comes twice",
            Refusal::ValueNotPermitted => "a known name has a value that is not permitted",
            Refusal::NameMissing => "a required name is missing",
            Refusal::NamesAtOdds => "two parameters contradict each other",
        }
    }
}

impl fmt::Display for Refusal {
    fn fmt<W: fmt::Write>(&self, f: &mut fmt::Formatter<W>) -> fmt::Result {
        f.write_str(self.words())
    }
}
