//! A sample row data (SRD) header: how long its segment is, and where in the part it begins.

ghost use Rattle.std.specs.Prelude.{◌≡◌, ◌^◌, ◌<◌};
ghost use Rattle.theory.specs.Packets as rules;

use crate::fields::Fields;

/// The header with an index, among those of a packet.
#[derive(Clone, Copy)]
pub(crate) struct RowHeader<'a> {
    pub(crate) fields: Fields<'a>,
    pub(crate) index: u8,
}

impl RowHeader<'_> {
    /// Where the header begins in the packet.
    pub(crate) fn start(&self) -> usize
        ensures value { result ≡ rules.header self.now.fields.octets.now self.now.index }
        ensures bound { result < 2 ^ 21 }
    {
        let index = self.index;
        self.fields.payload_start() + 2 + 6 * usize::from(index)
    }

    /// Octets of the segment.
    pub(crate) fn length(&self) -> u16
        ensures { result ≡ rules.srd_length self.now.fields.octets.now self.now.index }
    {
        self.fields.number16(self.start())
    }

    pub(crate) fn field(&self) -> u8
        ensures { result ≡ rules.srd_field self.now.fields.octets.now self.now.index }
    {
        self.fields.octet(self.start() + 2) / 128
    }

    pub(crate) fn row(&self) -> u16
        ensures { result ≡ rules.srd_row self.now.fields.octets.now self.now.index }
    {
        self.fields.number16(self.start() + 2) % 32768
    }

    /// Whether another header follows.
    pub(crate) fn continues(&self) -> bool
        ensures { result ≡ rules.continues self.now.fields.octets.now self.now.index }
    {
        self.fields.octet(self.start() + 4) / 128 == 1
    }

    /// The column at which the segment begins.
    pub(crate) fn offset(&self) -> u16
        ensures { result ≡ rules.srd_offset self.now.fields.octets.now self.now.index }
    {
        self.fields.number16(self.start() + 4) % 32768
    }
}
