//! Packets as another maker may send them: other cuts, contributing sources, an extension, padding.

use formats::Part;
use kinds::GroupKind;
use std::alloc::{AllocError, Global};

/// Some groups of a unit row.
#[derive(Clone, Copy)]
pub struct Piece {
    pub unit_row: usize,
    pub first: usize,
    pub groups: usize,
}

/// What stands around the segments of a packet.
#[derive(Clone, Copy)]
pub struct Manner {
    pub sequence: u32,
    pub marker: bool,
    pub sources: u8,
    pub extension_words: u8,
    pub padding: u8,
}

/// The pieces of a part, so many groups each or what is left of a row.
pub fn pieces<K: GroupKind + Copy>(
    heap: Global,
    part: &Part<K>,
    most: usize,
) -> Result<Vec<Piece>, AllocError> {
    let mut all = Vec::new(heap);
    let row_groups = part.format.row_groups();
    let most = most.max(1);
    for unit_row in 0..part.unit_rows() {
        for i in 0..row_groups.div_ceil(most) {
            let first = i.saturating_mul(most);
            let groups = most.min(row_groups.saturating_sub(first));
            all.push(Piece {
                unit_row,
                first,
                groups,
            })?;
        }
    }
    Ok(all)
}

/// A packet of these pieces; `groups` has the octets of all groups of the part.
pub fn packet_of<K: GroupKind + Copy>(
    heap: Global,
    part: &Part<K>,
    groups: &[u8],
    pieces: &[Piece],
    manner: Manner,
) -> Result<Vec<u8>, AllocError> {
    let mut packet = Vec::new(heap);
    push_rtp_header(&mut packet, part, manner)?;
    push_number(&mut packet, (manner.sequence >> 16) as u16)?;
    let count = pieces.len();
    for (i, piece) in pieces.iter().enumerate() {
        push_srd_header(&mut packet, part, *piece, i.saturating_add(1) < count)?;
    }
    for piece in pieces {
        push_groups(&mut packet, part, groups, *piece)?;
    }
    // The last octet of the padding counts it.
    for rest in (0..manner.padding).rev() {
        packet.push(if rest == 0 { manner.padding } else { 0 })?;
    }
    Ok(packet)
}

fn push_rtp_header<K: GroupKind + Copy>(
    packet: &mut Vec<u8>,
    part: &Part<K>,
    manner: Manner,
) -> Result<(), AllocError> {
    let padded = if manner.padding > 0 { 32 } else { 0 };
    let extended = if manner.extension_words > 0 { 16 } else { 0 };
    packet.push(128 | padded | extended | manner.sources & 15)?;
    let marker = if manner.marker { 128 } else { 0 };
    packet.push(marker | part.format.payload_type)?;
    push_number(packet, (manner.sequence & 0xffff) as u16)?;
    packet.extend_from_slice(&part.timestamp.to_be_bytes())?;
    packet.extend_from_slice(&part.format.ssrc.to_be_bytes())?;
    for source in 0..manner.sources & 15 {
        packet.extend_from_slice(&u32::from(source).to_be_bytes())?;
    }
    if manner.extension_words > 0 {
        push_number(packet, 0xbede)?;
        push_number(packet, u16::from(manner.extension_words))?;
        for _ in 0..manner.extension_words {
            packet.extend_from_slice(&[0, 0, 0, 0])?;
        }
    }
    Ok(())
}

fn push_srd_header<K: GroupKind + Copy>(
    packet: &mut Vec<u8>,
    part: &Part<K>,
    piece: Piece,
    more: bool,
) -> Result<(), AllocError> {
    let length = piece.groups.wrapping_mul(part.format.group_octets());
    let row = piece.unit_row.wrapping_mul(part.format.kind.group_rows());
    let column = piece.first.wrapping_mul(part.format.group_columns());
    let field = u16::from(part.field & 1) << 15;
    let continued: u16 = if more { 1 << 15 } else { 0 };
    push_number(packet, (length & 0xffff) as u16)?;
    push_number(packet, field | (row & 0x7fff) as u16)?;
    push_number(packet, continued | (column & 0x7fff) as u16)
}

// The octets of a piece, from those of all groups.
fn push_groups<K: GroupKind + Copy>(
    packet: &mut Vec<u8>,
    part: &Part<K>,
    groups: &[u8],
    piece: Piece,
) -> Result<(), AllocError> {
    let octets = part.format.group_octets();
    let first = piece
        .unit_row
        .saturating_mul(part.format.row_groups())
        .saturating_add(piece.first);
    let start = first.saturating_mul(octets).min(groups.len());
    let length = piece
        .groups
        .saturating_mul(octets)
        .min(groups.len() - start);
    packet.extend_from_slice(&groups[start..start + length])
}

fn push_number(packet: &mut Vec<u8>, number: u16) -> Result<(), AllocError> {
    packet.extend_from_slice(&number.to_be_bytes())
}
