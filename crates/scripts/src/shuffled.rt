//! A part's packets as they may come back: some late or damaged, every second one twice and in another order, and all of it once more as a
//! stranger cuts it.

use crate::stranger::{Manner, packet_of, pieces};
use formats::Part;
use kinds::GroupKind;
use packets::Packet;
use std::alloc::{AllocError, Global};

// The stranger's groups in a segment, and segments in a packet.
const PIECE_GROUPS: usize = 29;

const PACKET_PIECES: usize = 3;

/// What comes back of a part that was sent, in the order of its coming.
pub fn returning<K: GroupKind + Copy>(
    heap: Global,
    part: &Part<K>,
    sent: &[Vec<u8>],
) -> Result<Vec<Vec<u8>>, AllocError> {
    let mut offers = Vec::new(heap);
    if let Some(packet) = sent.first() {
        push_damaged(heap, &mut offers, packet)?;
    }
    push_turned(heap, &mut offers, sent)?;
    push_stranger(heap, &mut offers, part, sent)?;
    Ok(offers)
}

// A packet of an earlier timestamp, of another version, of another stream, cut short, and of a row beyond the part.
fn push_damaged(heap: Global, offers: &mut Vec<Vec<u8>>, packet: &[u8]) -> Result<(), AllocError> {
    offers.push(altered(heap, packet, 6, 1)?)?;
    offers.push(altered(heap, packet, 0, 0xc0)?)?;
    offers.push(altered(heap, packet, 11, 1)?)?;
    offers.push(packet[..packet.len() / 2].to_vec(heap)?)?;
    offers.push(altered(heap, packet, 16, 0x10)?)?;
    Ok(())
}

// The packet with some bits of one octet turned over.
fn altered(heap: Global, packet: &[u8], at: usize, bits: u8) -> Result<Vec<u8>, AllocError> {
    let mut copy = packet.to_vec(heap)?;
    if let Some(octet) = copy.get_mut(at) {
        *octet ^= bits;
    }
    Ok(copy)
}

// The packets with an even number, the last of them first, each twice.
fn push_turned(
    heap: Global,
    offers: &mut Vec<Vec<u8>>,
    sent: &[Vec<u8>],
) -> Result<(), AllocError> {
    for (i, packet) in sent.iter().enumerate().rev() {
        if i % 2 == 0 {
            offers.push(packet.to_vec(heap)?)?;
            offers.push(packet.to_vec(heap)?)?;
        }
    }
    Ok(())
}

// The whole part in the stranger's cuts, with two contributing sources and an extension; the last packet is padded.
fn push_stranger<K: GroupKind + Copy>(
    heap: Global,
    offers: &mut Vec<Vec<u8>>,
    part: &Part<K>,
    sent: &[Vec<u8>],
) -> Result<(), AllocError> {
    let groups = groups_of(heap, part, sent)?;
    let cuts = pieces(heap, part, PIECE_GROUPS)?;
    let packets = cuts.len().div_ceil(PACKET_PIECES);
    for (i, pieces) in cuts.chunks(PACKET_PIECES).enumerate() {
        let last = i.saturating_add(1) == packets;
        let manner = Manner {
            sequence: (i & 0xffff) as u32,
            marker: last,
            sources: 2,
            extension_words: 1,
            padding: if last { 4 } else { 0 },
        };
        offers.push(packet_of(heap, part, &groups, pieces, manner)?)?;
    }
    Ok(())
}

// The octets of a part's groups, from its packets in their order.
fn groups_of<K: GroupKind + Copy>(
    heap: Global,
    part: &Part<K>,
    sent: &[Vec<u8>],
) -> Result<Vec<u8>, AllocError> {
    let mut groups = Vec::new(heap);
    for packet in sent {
        if let Ok(packet) = Packet::read(packet, part) {
            for segment in packet.iter() {
                groups.extend_from_slice(segment.octets)?;
            }
        }
    }
    Ok(groups)
}
