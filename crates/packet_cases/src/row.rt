//! A row of the table: a packet, and the answer that is due.

use crate::parts::read;
use crate::words::Words;
use packets::{Packet, Segment};

// So many octets of a packet are looked at: more than any has that is read.
const MOST_OCTETS: usize = 2048;

/// Whether a row's packet gets the answer that is due. Every row is tried: what is not there or no number counts as some number.
pub fn is_answered(row: &[u8]) -> bool {
    let mut words = Words::of(row);
    let letter = words.letter();
    let timestamp = words.number();
    let field = words.letter().wrapping_sub(b'0');
    let mut octets = [0; MOST_OCTETS];
    let length = words.octets(&mut octets).min(MOST_OCTETS);
    let due = words.number();
    match read(letter, timestamp, field, &octets[..length]) {
        Ok(packet) => due == 0 && carries(&packet, &mut words),
        Err(refusal) => due == u32::from(refusal.number()),
    }
}

// Whether a packet carries what the rest of a row says.
fn carries(packet: &Packet, words: &mut Words) -> bool {
    words.number() == u32::from(packet.marker())
        && words.number() as usize == packet.segments()
        && packet.iter().all(|segment| is_due(&segment, words))
        && packet.segment(packet.segments()).is_none()
}

// Whether a segment has the place, the number of octets and the digest that are due.
fn is_due(segment: &Segment, words: &mut Words) -> bool {
    segment.unit_row == words.number() as usize
        && segment.first_group == words.number() as usize
        && segment.groups == words.number() as usize
        && segment.octets.len() == words.number() as usize
        && digest_of(segment.octets) == words.number()
}

// A number that depends on each octet and on its place.
fn digest_of(octets: &[u8]) -> u32 {
    octets.iter().fold(0, |digest: u32, octet| {
        digest.wrapping_mul(31).wrapping_add(u32::from(*octet)) % 65536
    })
}
