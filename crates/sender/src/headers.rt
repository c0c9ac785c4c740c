//! The headers of a packet.

ghost use Rattle.std.specs.Prelude.{◌≡◌, ◌*◌, ◌/◌, ◌<◌, ◌++◌, length};
ghost use Rattle.formats.specs.Meaning.{part_of};
ghost use Rattle.theory.specs.Octets.{octets16};
ghost use Rattle.theory.specs.Formats.{layout_of, groups};
ghost use Rattle.theory.specs.Cutting.{rtp_header, srd_header, srd_headers};
ghost use Rattle.sender.specs.Cuts.{segment_of, segments_left};

use crate::cutting::{Segment, Segments};
use crate::source::Source;
use kinds::GroupKind;
use stores::Store;

/// Octets in front of the sample row data headers: the RTP header, and the 16 high bits of the sequence number.
pub(crate) const PACKET_HEADER: usize = 14;

/// Octets of a sample row data header.
pub(crate) const SEGMENT_HEADER: usize = 6;

impl<K: GroupKind, S: Store> Source<'_, K, S> {
    /// The RTP header, and behind it the 16 high bits of the sequence number.
    pub(crate) fn packet_header(&self, sequence: u32, last: bool) -> [u8; PACKET_HEADER]
        ensures { result ≡ rtp_header (part_of K.GroupKind.kind self.now.part.now) sequence last ++ octets16 (sequence / 65536) }
    {
        let format = &self.part.format;
        let marker = if last { 128 } else { 0 };
        let [n0, n1, n2, n3] = sequence.to_be_bytes();
        let [t0, t1, t2, t3] = self.part.timestamp.to_be_bytes();
        let [s0, s1, s2, s3] = format.ssrc.to_be_bytes();
        [
            128,
            marker + format.payload_type,
            n2,
            n3,
            t0,
            t1,
            t2,
            t3,
            s0,
            s1,
            s2,
            s3,
            n0,
            n1,
        ]
    }

    // The sample row data header of a segment: length; field and row; whether another header follows, and offset.
    fn segment_header(&self, segment: Segment, more: bool) -> [u8; SEGMENT_HEADER]
        requires inside { segment.first < groups (part_of K.GroupKind.kind self.now.part.now) }
        requires short { segment.count * (layout_of (part_of K.GroupKind.kind self.now.part.now).format).octets < 65536 }
        ensures { result ≡ srd_header (part_of K.GroupKind.kind self.now.part.now) (segment_of segment) more }
    {
        let format = &self.part.format;
        let continued = if more { 32768 } else { 0 };
        let row = segment.first / self.row_groups * format.kind.group_rows();
        let column = segment.first % self.row_groups * format.group_columns();
        let [l0, l1] = ((segment.count * self.octets) as u16).to_be_bytes();
        let [p0, p1] = ((self.part.field as usize * 32768 + row) as u16).to_be_bytes();
        let [o0, o1] = ((continued + column) as u16).to_be_bytes();
        [l0, l1, p0, p1, o0, o1]
    }
}

impl<K: GroupKind, S: Store> Segments<'_, K, S> {
    /// Writes the headers of the segments, each behind the one before it. It calls itself for the rest: of a loop over `chunks_exact_mut`
    /// the library does not say what the octets are afterwards.
    pub(crate) fn write_headers(mut self, out: &mut [u8])
        requires { length out.old ≡ 6 * length (segments_left self) }
        ensures { out.new ≡ srd_headers (part_of K.GroupKind.kind self.entry.source.part.now) (segments_left self.entry) }
    {
        let source = self.source;
        if let Some(segment) = self.next() {
            let (header, behind) = out.split_at_mut(SEGMENT_HEADER);
            let octets = source.segment_header(segment, !behind.is_empty());
            header.copy_from_slice(&octets);
            self.write_headers(behind);
        }
    }
}
