//! The segments of a packet, one after another.

ghost use Rattle.std.specs.Iterator.{YieldsFirstBy, item_count};
ghost use Rattle.packets.specs.Carried.{placed};
ghost use Rattle.packets.specs.Segments.{segments_left};

use crate::packet::{Packet, Segment};

/// The segments that are still to come, in the order of their headers.
#[derive(Clone, Copy)]
pub struct Segments<'a> {
    pub(crate) packet: Packet<'a>,
    pub(crate) index: usize,
}

impl<'a> Iterator for Segments<'a> {
    type Item = Segment<'a>;

    ghost next_gives = { YieldsFirstBy placed segments_left };

    ghost remaining = { item_count segments_left };

    fn next(&mut self) -> Option<Segment<'a>> {
        let segment = self.packet.segment(self.index)?;
        self.index += 1;
        Some(segment)
    }
}
