//! The whole frame of a format, which a store keeps, and the memory that it takes.

ghost use Rattle.std.specs.Prelude.{◌≡◌};
ghost use Rattle.formats.specs.Meaning.{format_of, part_of};
ghost use Rattle.formats.specs.Frames.{frame_of, planar_words, packed_octets};

use crate::format::Format;
use crate::part::Part;
use crate::scan::Scan;
use crate::sizes::times;
use kinds::GroupKind;

impl<K: GroupKind + Copy> Format<K> {
    /// The whole frame, as one progressive part.
    pub fn frame(&self) -> Part<K>
        ensures { part_of K.GroupKind.kind result ≡ frame_of (format_of K.GroupKind.kind self.now) }
    {
        Part {
            format: Format {
                scan: Scan::Progressive as u8,
                ..*self
            },
            timestamp: 0,
            field: 0,
        }
    }

    /// Words of a frame that is kept plane after plane, one word for each sample.
    pub fn planar_words(&self) -> usize
        ensures { result ≡ planar_words (format_of K.GroupKind.kind self.now) }
    {
        let frame = self.frame();
        frame.plane_area(0) + frame.plane_area(1) + frame.plane_area(2)
    }

    /// Octets of a frame that is kept as on the wire, group after group.
    pub fn packed_octets(&self) -> usize
        ensures { result ≡ packed_octets (format_of K.GroupKind.kind self.now) }
    {
        times(self.frame().groups(), self.group_octets())
    }
}
