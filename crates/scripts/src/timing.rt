//! How long a frame of 1920 x 1080 at 4:2:2 and 10 bits takes, sent and taken, over planar and over packed memory, beside a plain copy of
//! the frame's memory. The format is read from a line, so that nothing of it is known when this is compiled.

use crate::command::PartName;
use crate::sending::draw_all;
use crate::store::put_ramp;
use anyhow::anyhow;
use formats::{Format, Part};
use kinds::{GroupKind, Ycc422};
use packed::Packed;
use receiver::Idle;
use std::time::{Duration, Instant};
use stores::{Planar, Store};

const LINE: &[u8] =
    b"sampling=YCbCr-4:2:2; width=1920; height=1080; exactframerate=60; depth=10; colorimetry=BT709; PM=2110GPM; SSN=ST2110-20:2017";

const ROUNDS: u32 = 30;

/// Times the moves of a frame, and prints what came out.
pub fn time_frames(rt: &HostRuntime) -> anyhow::Result<()> {
    let Ok(record) = fmtp::read(LINE) else {
        return Err(anyhow!("the format line is refused"));
    };
    let Ok(format) = Format::announced(Ycc422, &record, 96, 1) else {
        return Err(anyhow!("the format is refused"));
    };
    time_planar(rt, &format)?;
    time_packed(rt, &format)
}

// Two functions, of which each has what its store alone has: its memory, and how it is made over it.
fn time_planar<K: GroupKind + Copy>(rt: &HostRuntime, format: &Format<K>) -> anyhow::Result<()> {
    let mut words = vec![in rt.alloc(); 0u16; format.planar_words()]?;
    let copy = time_copy(rt, &words)?;
    println!(rt; "planar memory")?;
    print_time(rt, "copy", format, copy, copy)?;
    let mut store = Planar::new(format, words.as_mut_slice());
    time_store(rt, format, &mut store, copy)
}

fn time_packed<K: GroupKind + Copy>(rt: &HostRuntime, format: &Format<K>) -> anyhow::Result<()> {
    let mut octets = vec![in rt.alloc(); 0u8; format.packed_octets()]?;
    let copy = time_copy(rt, &octets)?;
    println!(rt; "packed memory")?;
    print_time(rt, "copy", format, copy, copy)?;
    let mut store = Packed::new(format, octets.as_mut_slice());
    time_store(rt, format, &mut store, copy)
}

// How long plain copies of a memory take. Not by `timed`: that both lengths are one stands in this loop, and not in a closure.
fn time_copy<T: Copy>(rt: &HostRuntime, memory: &[T]) -> anyhow::Result<Duration> {
    let mut target = memory.to_vec(rt.alloc())?;
    let start = Instant::now(rt)?;
    for _ in 0..ROUNDS {
        target.as_mut_slice().copy_from_slice(memory);
    }
    Ok(start.elapsed(rt)?)
}

// How long all rounds of some work take.
fn timed<F: FnMut() -> anyhow::Result<()>>(
    rt: &HostRuntime,
    mut work: F,
) -> anyhow::Result<Duration>
    requires { F.IsAlwaysCallable work }
{
    let start = Instant::now(rt)?;
    for _ in 0..ROUNDS {
        work()?;
    }
    Ok(start.elapsed(rt)?)
}

fn time_store<K: GroupKind + Copy, S: Store>(
    rt: &HostRuntime,
    format: &Format<K>,
    store: &mut S,
    copy: Duration,
) -> anyhow::Result<()> {
    put_ramp(store);
    let part = PartName {
        timestamp: 1,
        field: 0,
    }
    .of(format);
    let mut packets = Vec::new(rt.alloc());
    draw(&part, store, |packet| {
        Ok(packets.push(packet.to_vec(rt.alloc())?)?)
    })?;
    let mut octets = Vec::new(rt.alloc());
    let time = timed(rt, || {
        octets.clear();
        draw(&part, store, |packet| Ok(octets.extend_from_slice(packet)?))
    })?;
    print_time(rt, "send", format, time, copy)?;
    let mut map = vec![in rt.alloc(); 0u8; part.map_octets()]?;
    let time = timed(rt, || Ok(take(&part, &packets, store, map.as_mut_slice())))?;
    print_time(rt, "take", format, time, copy)
}

fn draw<K: GroupKind + Copy, S: Store, F: FnMut(&[u8]) -> anyhow::Result<()>>(
    part: &Part<K>,
    store: &S,
    give: F,
) -> anyhow::Result<()>
    requires { F.IsAlwaysCallable give }
{
    match draw_all(part, store, 0, give)? {
        Ok(_) => Ok(()),
        Err(refusal) => Err(anyhow!("{refusal}")),
    }
}

fn take<K: GroupKind + Copy, S: Store>(
    part: &Part<K>,
    packets: &[Vec<u8>],
    store: &mut S,
    map: &mut [u8],
) {
    if let Ok(opened) = Idle.open(part.format, part.timestamp, part.field, map) {
        for packet in packets {
            let _ = opened.take(packet, store, map);
        }
        let _idle = opened.close();
    }
}

fn print_time<K: GroupKind + Copy>(
    rt: &HostRuntime,
    what: &str,
    format: &Format<K>,
    time: Duration,
    copy: Duration,
) -> anyhow::Result<()> {
    let seconds = time.as_secs_f64() / f64::from(ROUNDS);
    let samples = std::num::nearest_u64_to_f64(format.planar_words() as u64);
    let frames = 1.0 / seconds;
    let nanoseconds = seconds * 1e9 / samples;
    let milliseconds = seconds * 1e3;
    let ratio = time.as_secs_f64() / copy.as_secs_f64();
    println!(rt;
        "{what} {milliseconds:.2} ms a frame, {frames:.0} frames a second, {nanoseconds:.2} ns a sample, {ratio:.1} times a copy"
    )?;
    Ok(())
}
