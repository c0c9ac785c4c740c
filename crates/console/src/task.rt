//! What is done with the format that a record announces.

use crate::packet::Given;
use formats::{Format, Part, SampledKind};
use reports::{FormatTask, Geometry, Reading};

/// Says what follows from the format.
#[derive(Drop)]
pub struct Describe<'a> {
    pub rt: &'a HostRuntime,
}

impl FormatTask for Describe<'_> {
    type Out = anyhow::Result<()>;

    ghost Leaves = { λ _ _ _ _. Unit {0} };

    fn run<K: SampledKind + Copy>(&mut self, format: &Format<K>) -> anyhow::Result<()> {
        Ok(print!(self.rt; "{}", Geometry(format))?)
    }
}

/// Reads a packet for a part of the format, and says which segments it carries or why it is refused.
#[derive(Drop)]
pub struct ReadPacket<'a> {
    pub rt: &'a HostRuntime,
    pub given: Given<'a>,
}

impl FormatTask for ReadPacket<'_> {
    type Out = anyhow::Result<()>;

    ghost Leaves = { λ _ _ _ _. Unit {0} };

    fn run<K: SampledKind + Copy>(&mut self, format: &Format<K>) -> anyhow::Result<()> {
        let rt = self.rt;
        let Some(octets) = octets_of(rt, self.given.hex)? else {
            return Ok(());
        };
        let part = Part {
            format: *format,
            timestamp: self.given.timestamp,
            field: self.given.field,
        };
        let reading = Reading {
            packet: &octets,
            part: &part,
        };
        Ok(print!(rt; "{reading}")?)
    }
}

// The octets of a packet in hex; says so where the text is no such packet, which needs no memory.
fn octets_of(rt: &HostRuntime, text: &str) -> anyhow::Result<Option<Vec<u8>>> {
    if text.len().is_multiple_of(2) && text.bytes().all(|digit| digit.is_ascii_hexdigit()) {
        let mut octets = vec![in rt.alloc(); 0u8; text.len() / 2]?;
        if hex::decode_to_slice(text, octets.as_mut_slice()).is_ok() {
            return Ok(Some(octets));
        }
    }
    println!(rt; "not understood: a packet is an even number of hex digits")?;
    Ok(None)
}
