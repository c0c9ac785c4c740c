//! The formats that the letters of a row name.

use formats::{Format, Mode, Part, Scan};
use kinds::{GroupKind, Key, Rgb, Ycc420, Ycc422, Ycc444};
use packets::Packet;
use refusals::Refusal;

/// The packet, read for a part of the format that the letter names.
pub fn read(letter: u8, timestamp: u32, field: u8, octets: &[u8]) -> Result<Packet, Refusal> {
    match letter {
        b'D' | b'Y' => Packet::read(octets, &part(Ycc420, letter, timestamp, field)),
        b'E' => Packet::read(octets, &part(Ycc444, letter, timestamp, field)),
        b'F' => Packet::read(octets, &part(Key, letter, timestamp, field)),
        b'G' => Packet::read(octets, &part(Rgb, letter, timestamp, field)),
        _ => Packet::read(octets, &part(Ycc422, letter, timestamp, field)),
    }
}

fn part<K: GroupKind + Copy>(kind: K, letter: u8, timestamp: u32, field: u8) -> Part<K> {
    Part {
        format: format_of(kind, letter),
        timestamp,
        field,
    }
}

// From U on the formats are outside the limits, but for W.
fn format_of<K: Copy>(kind: K, letter: u8) -> Format<K> {
    let hd = Format {
        kind,
        depth: 10,
        width: 1920,
        height: 1080,
        scan: Scan::Progressive as u8,
        mode: Mode::General as u8,
        payload_type: 96,
        ssrc: 1,
    };
    let block = Mode::Block as u8;
    let interlaced = Scan::Interlaced as u8;
    let segmented = Scan::Segmented as u8;
    match letter {
        b'A' => hd,
        b'B' => Format { mode: block, ..hd },
        b'C' => Format {
            height: 1081,
            scan: interlaced,
            ..hd
        },
        b'D' => Format { height: 9, ..hd },
        b'E' => Format {
            width: 5,
            height: 4,
            payload_type: 127,
            ..hd
        },
        b'F' => Format {
            depth: 8,
            width: 1,
            height: 1,
            ..hd
        },
        b'G' => Format {
            depth: 8,
            width: 720,
            height: 486,
            scan: segmented,
            ..hd
        },
        b'U' => Format {
            payload_type: 95,
            ..hd
        },
        b'V' => Format {
            width: 250,
            mode: block,
            ..hd
        },
        b'W' => Format {
            width: 252,
            mode: block,
            ..hd
        },
        b'X' => Format { depth: 9, ..hd },
        b'Y' => Format {
            scan: interlaced,
            ..hd
        },
        _ => Format { width: 0, ..hd },
    }
}
