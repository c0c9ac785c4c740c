//! A packet for people.

use packets::{Packet, Segment};
use std::fmt;

/// Shows what a packet carries: a line for the packet, and one for each segment.
#[derive(Clone, Copy)]
pub struct Contents<'a>(pub &'a Packet<'a>);

impl fmt::Display for Contents<'_> {
    fn fmt<W: fmt::Write>(&self, f: &mut fmt::Formatter<W>) -> fmt::Result {
        let packet = self.0;
        let count = packet.segments();
        let marker = if packet.marker() { "set" } else { "clear" };
        writeln!(f, "packet         segments {count}, marker {marker}")?;
        for (i, segment) in packet.iter().enumerate() {
            let Segment {
                octets,
                unit_row,
                first_group,
                groups,
            } = segment;
            let octets = octets.len();
            writeln!(
                f,
                "segment {i}      unit row {unit_row}, first group {first_group}, groups {groups}, octets {octets}"
            )?;
        }
        Ok(())
    }
}
