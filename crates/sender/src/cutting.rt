//! How a part is cut into packets: the segments of the packet that begins at a group.

ghost use Rattle.std.specs.Prelude.{◌≡◌, ◌≤◌};
ghost use Rattle.std.specs.Iterator.{at_most};
ghost use Rattle.formats.specs.Meaning.{part_of};
ghost use Rattle.theory.specs.Cutting.{cut as cut_of};

use crate::headers::SEGMENT_HEADER;
use crate::source::Source;
use formats::Mode;
use kinds::GroupKind;
use stores::Store;

// Octets for groups in block mode, and for headers and groups in general mode.
const BLOCK_SPACE: usize = 1260;

const GENERAL_SPACE: usize = 1438;

// The most segments of a packet.
const MOST_SEGMENTS: usize = 3;

/// Groups of one unit row.
#[derive(Clone, Copy)]
pub(crate) struct Segment {
    pub(crate) first: usize,
    pub(crate) count: usize,
}

/// Segments, each beginning where the one before it ends: at most so many from a group on, in so many octets of space, of which each
/// takes a header and its groups.
#[derive(Drop)]
pub(crate) struct Segments<'a, K: GroupKind, S: Store> {
    pub(crate) source: Source<'a, K, S>,
    pub(crate) header: usize,
    pub(crate) space: usize,
    pub(crate) most: usize,
    pub(crate) first: usize,
    ghost small: { space ≤ 1438 },
}

impl<'a, K: GroupKind, S: Store> Source<'a, K, S> {
    ghost use Rattle.sender.specs.Cuts.{segments_left};

    /// The segments of the packet that begins at a group.
    pub(crate) fn segments(&self, first: usize) -> Segments<'a, K, S>
        ensures part { result.source.part.now ≡ self.now.part.now }
        ensures segments { segments_left result ≡ cut_of (part_of K.GroupKind.kind self.now.part.now) first }
    {
        let (header, space) = if self.part.format.mode == Mode::Block as u8 {
            (0, BLOCK_SPACE)
        } else {
            (SEGMENT_HEADER, GENERAL_SPACE)
        };
        Segments {
            source: *self,
            header,
            space,
            most: MOST_SEGMENTS,
            first,
        }
    }
}

impl<K: GroupKind, S: Store> Iterator for Segments<'_, K, S> {
    ghost use Rattle.sender.specs.Cuts.{WalksSegments};

    type Item = Segment;

    ghost next_gives = { WalksSegments };

    ghost remaining = { λ s. at_most s.most };

    fn next(&mut self) -> Option<Segment> {
        let source = self.source;
        let first = self.first;
        let room = self.space.saturating_sub(self.header);
        if self.most == 0 || source.groups <= first || room < source.octets {
            return None;
        }
        let count = (room / source.octets).min(source.row_groups - first % source.row_groups);
        self.space -= self.header + count * source.octets;
        self.most -= 1;
        self.first += count;
        Some(Segment { first, count })
    }
}
