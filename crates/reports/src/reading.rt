//! The reading of a packet, for people.

use crate::contents::Contents;
use crate::refused::Refused;
use formats::Part;
use kinds::GroupKind;
use packets::Packet;
use std::fmt;

/// Shows which segments a packet carries for a part, or why it is refused.
#[derive(Clone, Copy)]
pub struct Reading<'a, K> {
    pub packet: &'a [u8],
    pub part: &'a Part<K>,
}

impl<K: GroupKind> fmt::Display for Reading<'_, K> {
    fn fmt<W: fmt::Write>(&self, f: &mut fmt::Formatter<W>) -> fmt::Result {
        match Packet::read(self.packet, self.part) {
            Ok(packet) => write!(f, "{}", Contents(&packet)),
            Err(refusal) => writeln!(f, "{}", Refused(refusal)),
        }
    }
}
