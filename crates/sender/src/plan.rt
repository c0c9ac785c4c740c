//! A packet before it is written, and the writing of it.

ghost use Rattle.std.specs.Prelude.{◌≡◌, ℕ, ◌+◌, ◌*◌, length};
ghost use Rattle.formats.specs.Meaning.{part_of};
ghost use Rattle.theory.specs.Pictures.{Picture};
ghost use Rattle.theory.specs.Cutting.{cut as cut_of, cut_groups, packet};
ghost use Rattle.sender.specs.Plans.{following};

use crate::headers::{PACKET_HEADER, SEGMENT_HEADER};
use crate::source::Source;
use kinds::GroupKind;
use stores::Store;

/// A packet of a source: its first group, and how many segments and groups it has.
#[derive(Drop)]
pub(crate) struct Plan<'a, K: GroupKind, S: Store> {
    pub(crate) source: Source<'a, K, S>,
    pub(crate) first: usize,
    pub(crate) segments: usize,
    pub(crate) groups: usize,
    ghost segments_are: { segments ≡ length (cut_of (part_of K.GroupKind.kind source.part.now) first) },
    ghost groups_are: { groups ≡ cut_groups (cut_of (part_of K.GroupKind.kind source.part.now) first) },
}

impl<'a, K: GroupKind, S: Store> Plan<'a, K, S> {
    /// The packet that begins at a group.
    pub(crate) fn at(source: Source<'a, K, S>, first: usize) -> Self
        ensures source { result.source ≡ source.entry }
        ensures first { result.first ≡ first }
    {
        let mut segments = 0;
        let mut groups = 0;
        for segment in source.segments(first) {
            segments += 1;
            groups += segment.count;
        }
        Plan {
            source,
            first,
            segments,
            groups,
        }
    }

    /// The first group of the packet behind it; none where it is the last of its part.
    pub(crate) fn next(&self) -> Option<usize>
        ensures { result ≡ following (part_of K.GroupKind.kind self.now.source.part.now) self.now.first }
    {
        let next = self.first + self.groups;
        (next < self.source.groups).then_some(next)
    }

    // Where the groups' octets begin: behind the headers.
    fn start(&self) -> usize
        ensures { result ≡ 14 + 6 * self.now.segments }
    {
        PACKET_HEADER + SEGMENT_HEADER * self.segments
    }

    /// How many octets it has.
    pub(crate) fn octets(&self) -> usize
        ensures { (v : Picture) (seq : ℕ) → result ≡ length (packet (part_of K.GroupKind.kind self.now.source.part.now) v seq self.now.first) }
    {
        self.start() + self.groups * self.source.octets
    }

    /// Writes it.
    pub(crate) fn write(&self, sequence: u32, out: &mut [u8])
        requires { length out.old ≡ length (packet (part_of K.GroupKind.kind self.now.source.part.now) (S.Store.picture self.now.source.store.now) sequence self.now.first) }
        ensures { out.new ≡ packet (part_of K.GroupKind.kind self.now.source.part.now) (S.Store.picture self.now.source.store.now) sequence self.now.first }
    {
        let source = &self.source;
        let start = self.start();
        let (headers, groups) = out.split_at_mut(start);
        let (front, segments) = headers.split_at_mut(PACKET_HEADER);
        let octets = source.packet_header(sequence, self.next().is_none());
        front.copy_from_slice(&octets);
        source.segments(self.first).write_headers(segments);
        source.write_groups(self.first, self.groups, groups);
    }
}
