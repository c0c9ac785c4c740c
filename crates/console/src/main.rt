//! Reads commands from standard input, one a line, and says what came of each.
//! A line that begins `packet ` has a timestamp, a field and a packet in hex, which is read for that part of the last format.
//! Any other line is a format line: what it announces and what follows is said, or why it is refused.
//! The program's two arguments, if given, are the payload type and the SSRC of the streams; else they are 96 and 1.
#![tactic(auto)]

mod packet;
mod task;

use fmtp::Listing;
use packet::Given;
use records::Record;
use reports::{FormatTask, Refused, Stream, with_format};
use std::io::{BufRead, BufReader};
use std::{env, str};
use task::{Describe, ReadPacket};

fn main(rt: HostRuntime) -> anyhow::Result<()> {
    run(&rt)
}

fn run(rt: &HostRuntime) -> anyhow::Result<()> {
    let stream = given_stream(rt)?;
    let mut last: Option<Record> = None;
    let lines = BufReader::new(rt.alloc(), rt.stdin())?.split(rt.alloc(), b'\n');
    for (i, line) in lines.enumerate() {
        let line = line?;
        // A line of a session description ends in a carriage return.
        let line = line.strip_suffix(b"\r").unwrap_or(&line);
        let number = i.saturating_add(1);
        println!(rt; "line {number}:")?;
        match line.strip_prefix(b"packet ") {
            Some(words) => read_packet(rt, &last, stream, words)?,
            None => last = announce(rt, line, stream)?,
        }
        println!(rt; "")?;
    }
    Ok(())
}

// The stream that the program's arguments give.
fn given_stream(rt: &HostRuntime) -> anyhow::Result<Stream> {
    let mut words = env::args(rt)?;
    let _program = words.next();
    let payload_type = match words.next() {
        Some(word) => word.as_str().parse::<u8>()?,
        None => 96,
    };
    let ssrc = match words.next() {
        Some(word) => word.as_str().parse::<u32>()?,
        None => 1,
    };
    Ok(Stream { payload_type, ssrc })
}

// Says what a format line announces, and hands its record on.
fn announce(rt: &HostRuntime, line: &[u8], stream: Stream) -> anyhow::Result<Option<Record>> {
    match fmtp::read(line) {
        Ok(record) => {
            print!(rt; "{}", Listing(&record))?;
            perform(rt, &record, stream, &mut Describe { rt })?;
            Ok(Some(record))
        }
        Err(refusal) => {
            println!(rt; "{}", Refused(refusal))?;
            Ok(None)
        }
    }
}

// Does a task with the format that a record announces, or says that the format is refused.
fn perform<T: FormatTask<Out = anyhow::Result<()>>>(
    rt: &HostRuntime,
    record: &Record,
    stream: Stream,
    task: &mut T,
) -> anyhow::Result<()> {
    match with_format(record, stream, task) {
        Ok(done) => done,
        Err(refusal) => Ok(println!(rt; "format         {}", Refused(refusal))?),
    }
}

// Reads a packet for a part of the last format.
fn read_packet(
    rt: &HostRuntime,
    last: &Option<Record>,
    stream: Stream,
    words: &[u8],
) -> anyhow::Result<()> {
    let Some(record) = last else {
        println!(rt; "not understood: a packet wants a format line before it")?;
        return Ok(());
    };
    match str::from_utf8(words).ok().and_then(Given::parse) {
        Some(given) => perform(rt, record, stream, &mut ReadPacket { rt, given }),
        None => {
            println!(rt;
                "not understood: write packet, a timestamp, a field and the packet in hex"
            )?;
            Ok(())
        }
    }
}
