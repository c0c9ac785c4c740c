//! Packets in hex; and one packet, read for a part and not taken.

use formats::Part;
use kinds::GroupKind;
use reports::Reading;
use std::fmt;

/// Shows octets in hex.
#[derive(Clone, Copy)]
pub struct InHex<'a>(pub &'a [u8]);

impl fmt::Display for InHex<'_> {
    fn fmt<W: fmt::Write>(&self, f: &mut fmt::Formatter<W>) -> fmt::Result {
        for octet in self.0 {
            write!(f, "{octet:02X}")?;
        }
        Ok(())
    }
}

/// The octets of a packet in hex; says so where the text is no such packet, which needs no memory.
pub fn octets_of(rt: &HostRuntime, text: &str) -> anyhow::Result<Option<Vec<u8>>> {
    if text.len().is_multiple_of(2) && text.bytes().all(|digit| digit.is_ascii_hexdigit()) {
        let mut octets = vec![in rt.alloc(); 0u8; text.len() / 2]?;
        if hex::decode_to_slice(text, octets.as_mut_slice()).is_ok() {
            return Ok(Some(octets));
        }
    }
    println!(rt; "not understood: a packet is an even number of hex digits")?;
    Ok(None)
}

/// Says which segments a packet carries for a part, or why it is refused.
pub fn print_packet<K: GroupKind>(
    rt: &HostRuntime,
    part: &Part<K>,
    hex: &str,
) -> anyhow::Result<()> {
    let Some(octets) = octets_of(rt, hex)? else {
        return Ok(());
    };
    let reading = Reading {
        packet: &octets,
        part,
    };
    Ok(print!(rt; "{reading}")?)
}
