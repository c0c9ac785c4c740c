//! The fields of a packet, each read at its place: those of the RTP header, then those that the sample row data (SRD) headers give together.
//! An octet past the packet's end reads as 0.

ghost use Rattle.std.specs.Prelude.{◌≡◌, ◌^◌, ◌<◌, ◌≤◌};
ghost use Rattle.theory.specs.Octets as octets;
ghost use Rattle.theory.specs.Packets as rules;

use crate::row_header::RowHeader;

/// The octets of a packet.
#[derive(Clone, Copy)]
pub(crate) struct Fields<'a> {
    pub(crate) octets: &'a [u8],
}

impl<'a> Fields<'a> {
    pub(crate) fn octet(&self, at: usize) -> u8
        ensures { result ≡ octets.octet self.now.octets.now at }
    {
        self.octets.get(at).copied().unwrap_or(0)
    }

    pub(crate) fn number16(&self, at: usize) -> u16
        requires { at < 2 ^ 32 }
        ensures { result ≡ octets.number16 self.now.octets.now at }
    {
        u16::from_be_bytes([self.octet(at), self.octet(at + 1)])
    }

    fn number32(&self, at: usize) -> u32
        requires { at < 2 ^ 31 }
        ensures { result ≡ octets.number32 self.now.octets.now at }
    {
        u32::from_be_bytes([
            self.octet(at),
            self.octet(at + 1),
            self.octet(at + 2),
            self.octet(at + 3),
        ])
    }

    pub(crate) fn version(&self) -> u8
        ensures { result ≡ rules.version self.now.octets.now }
    {
        self.octet(0) / 64
    }

    pub(crate) fn padded(&self) -> bool
        ensures { result ≡ rules.padded self.now.octets.now }
    {
        self.octet(0) / 32 % 2 == 1
    }

    fn extended(&self) -> bool
        ensures { result ≡ rules.extended self.now.octets.now }
    {
        self.octet(0) / 16 % 2 == 1
    }

    fn sources(&self) -> u8
        ensures { result ≡ rules.sources self.now.octets.now }
    {
        self.octet(0) % 16
    }

    pub(crate) fn marker(&self) -> bool
        ensures { result ≡ rules.marker self.now.octets.now }
    {
        self.octet(1) / 128 == 1
    }

    pub(crate) fn payload_type(&self) -> u8
        ensures { result ≡ rules.payload_type self.now.octets.now }
    {
        self.octet(1) % 128
    }

    pub(crate) fn timestamp(&self) -> u32
        ensures { result ≡ rules.timestamp self.now.octets.now }
    {
        self.number32(4)
    }

    pub(crate) fn ssrc(&self) -> u32
        ensures { result ≡ rules.ssrc self.now.octets.now }
    {
        self.number32(8)
    }

    fn sources_end(&self) -> usize
        ensures value { result ≡ rules.sources_end self.now.octets.now }
        ensures bound { result ≤ 72 }
    {
        12 + 4 * usize::from(self.sources())
    }

    /// Where the payload begins: behind the contributing sources and the extension.
    pub(crate) fn payload_start(&self) -> usize
        ensures value { result ≡ rules.payload_start self.now.octets.now }
        ensures bound { result < 2 ^ 20 }
    {
        let end = self.sources_end();
        if self.extended() {
            end + (4 + 4 * usize::from(self.number16(end + 2)))
        } else {
            end
        }
    }

    /// Octets of padding, which the packet's last octet counts.
    pub(crate) fn padding(&self) -> usize
        ensures value { result ≡ rules.padding self.now.octets.now }
        ensures bound { result < 256 }
    {
        if self.padded() {
            usize::from(self.octet(self.octets.len().saturating_sub(1)))
        } else {
            0
        }
    }

    pub(crate) fn payload_end(&self) -> usize
        ensures { result ≡ rules.payload_end self.now.octets.now }
    {
        self.octets.len().saturating_sub(self.padding())
    }

    /// SRD header `index`, whether the packet has so many or not.
    pub(crate) fn row_header(&self, index: u8) -> RowHeader<'a>
        ensures octets { result.fields.octets.now ≡ self.now.octets.now }
        ensures index { result.index ≡ index }
    {
        RowHeader {
            fields: *self,
            index,
        }
    }

    /// How many SRD headers there are: each but a third one says whether another follows.
    pub(crate) fn headers(&self) -> u8
        ensures value { result ≡ rules.headers self.now.octets.now }
        ensures low { 1 ≤ result }
        ensures high { result ≤ 3 }
    {
        if !self.row_header(0).continues() {
            1
        } else if !self.row_header(1).continues() {
            2
        } else {
            3
        }
    }

    /// Octets of the first `n` segments together.
    pub(crate) fn lengths(&self, n: u8) -> usize
        ensures value { result ≡ rules.lengths self.now.octets.now n }
        ensures bound { result < 2 ^ 32 }
    {
        let octets: u32 = (0..n).map(|i| u32::from(self.row_header(i).length())).sum();
        octets as usize
    }

    /// Octets of all segments together.
    pub(crate) fn all_lengths(&self) -> usize
        ensures { result ≡ rules.lengths self.now.octets.now (rules.headers self.now.octets.now) }
    {
        self.lengths(self.headers())
    }

    /// Where the segments begin.
    pub(crate) fn data_start(&self) -> usize
        ensures value { result ≡ rules.data_start self.now.octets.now }
        ensures bound { result < 2 ^ 21 }
    {
        self.row_header(self.headers()).start()
    }

    /// Octets that follow the SRD headers, up to the padding.
    pub(crate) fn data_octets(&self) -> usize
        ensures { result ≡ rules.data_octets self.now.octets.now }
    {
        self.payload_end().saturating_sub(self.data_start())
    }
}
