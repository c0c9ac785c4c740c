//! Both moves, from beginning to end: a ramp goes out as packets, and the packets come back shuffled, repeated, late, cut by a stranger
//! and damaged.

use crate::part::count;
use crate::sending::draw_all;
use crate::shuffled::returning;
use crate::store::put_ramp;
use formats::{Format, Mode, Part, Scan};
use kinds::{GroupKind, Ycc420, Ycc422};
use packed::Packed;
use receiver::{Idle, Open};
use reports::{Reading, Refused};
use stores::{Planar, Store};

const TIMESTAMP: u32 = 900_000;

const SEQUENCE: u32 = 65_530;

/// Sends and receives a 4:2:2 frame over planar memory, and a 4:2:0 frame of odd sizes over packed memory.
pub fn demonstrate(rt: &HostRuntime) -> anyhow::Result<()> {
    println!(rt; "4:2:2 at 10 bits, 720 x 5, from planar to packed memory")?;
    planar_to_packed(rt, &frame(Ycc422, 720, 5))?;
    println!(rt; "4:2:0 at 10 bits, 399 x 9, from packed to planar memory")?;
    packed_to_planar(rt, &frame(Ycc420, 399, 9))
}

fn frame<K>(kind: K, width: u16, height: u16) -> Format<K> {
    Format {
        kind,
        depth: 10,
        width,
        height,
        scan: Scan::Progressive as u8,
        mode: Mode::General as u8,
        payload_type: 96,
        ssrc: 1,
    }
}

// Two functions, as what changes places is the types of two stores: a generic one would be given their memory and how each is made.
fn planar_to_packed<K: GroupKind + Copy>(
    rt: &HostRuntime,
    format: &Format<K>,
) -> anyhow::Result<()> {
    let mut words = vec![in rt.alloc(); 0u16; format.planar_words()]?;
    let mut octets = vec![in rt.alloc(); 0x55u8; format.packed_octets()]?;
    let mut camera = Planar::new(format, words.as_mut_slice());
    let mut monitor = Packed::new(format, octets.as_mut_slice());
    travel(rt, format, &mut camera, &mut monitor)
}

fn packed_to_planar<K: GroupKind + Copy>(
    rt: &HostRuntime,
    format: &Format<K>,
) -> anyhow::Result<()> {
    let mut octets = vec![in rt.alloc(); 0u8; format.packed_octets()]?;
    let mut words = vec![in rt.alloc(); 0x55u16; format.planar_words()]?;
    let mut camera = Packed::new(format, octets.as_mut_slice());
    let mut monitor = Planar::new(format, words.as_mut_slice());
    travel(rt, format, &mut camera, &mut monitor)
}

// A ramp in the camera's store goes out, comes back, and is compared in the monitor's store.
fn travel<K: GroupKind + Copy, C: Store, M: Store>(
    rt: &HostRuntime,
    format: &Format<K>,
    camera: &mut C,
    monitor: &mut M,
) -> anyhow::Result<()> {
    put_ramp(camera);
    let part = Part {
        format: *format,
        timestamp: TIMESTAMP,
        field: 0,
    };
    let sent = send(rt, &part, camera)?;
    let offers = returning(rt.alloc(), &part, &sent)?;
    receive(rt, &part, &offers, monitor)?;
    let differ = differences(camera, monitor);
    if differ == 0 {
        println!(rt; "the picture is the one sent")?;
    } else {
        println!(rt; "{differ} samples differ from those sent")?;
    }
    Ok(())
}

// Sends a part, says what each packet carries, and gives the packets.
fn send<K: GroupKind + Copy, C: Store>(
    rt: &HostRuntime,
    part: &Part<K>,
    camera: &C,
) -> anyhow::Result<Vec<Vec<u8>>> {
    let mut packets = Vec::new(rt.alloc());
    let keep = |packet: &[u8]| -> anyhow::Result<()> {
        let length = packet.len();
        println!(rt; "out, octets {length}")?;
        print!(rt; "{}", Reading { packet, part })?;
        Ok(packets.push(packet.to_vec(rt.alloc())?)?)
    };
    match draw_all(part, camera, SEQUENCE, keep)? {
        Ok(sent) => {
            let next = sent.next_sequence();
            println!(rt; "sent, next sequence number {next}")?;
        }
        Err(refusal) => println!(rt; "{}", Refused(refusal))?,
    }
    Ok(packets)
}

// Offers packets to a part, and says each answer and how many groups are missing then.
fn receive<K: GroupKind + Copy, M: Store>(
    rt: &HostRuntime,
    part: &Part<K>,
    offers: &[Vec<u8>],
    monitor: &mut M,
) -> anyhow::Result<()> {
    let mut map = vec![in rt.alloc(); 0u8; part.map_octets()]?;
    let map = map.as_mut_slice();
    match Idle.open(part.format, part.timestamp, part.field, map) {
        Ok(opened) => {
            count(rt, &opened, monitor, map)?;
            for packet in offers {
                offer(rt, &opened, packet, monitor, map)?;
            }
            let _idle = opened.close();
        }
        Err((_, refusal)) => println!(rt; "{}", Refused(refusal))?,
    }
    Ok(())
}

fn offer<K: GroupKind + Copy, M: Store>(
    rt: &HostRuntime,
    opened: &Open<K>,
    packet: &[u8],
    monitor: &mut M,
    map: &mut [u8],
) -> anyhow::Result<()> {
    match opened.take(packet, monitor, map) {
        Ok(groups) => {
            print!(rt; "in, taken, new groups {groups}, ")?;
            count(rt, opened, monitor, map)?;
        }
        Err(refusal) => println!(rt; "in, {}", Refused(refusal))?,
    }
    Ok(())
}

// In how many samples two stores of the same sizes differ.
fn differences<C: Store, M: Store>(camera: &C, monitor: &M) -> usize {
    let mut differ: usize = 0;
    for plane in 0..camera.planes() {
        for row in 0..camera.height(plane) {
            let columns = 0..camera.width(plane);
            let differing = columns.filter(|column| {
                value_at(camera, plane, row, *column) != value_at(monitor, plane, row, *column)
            });
            differ = differ.saturating_add(differing.count());
        }
    }
    differ
}

fn value_at<S: Store>(store: &S, plane: usize, row: usize, column: usize) -> Option<u16> {
    store.show(plane, row, column).ok()
}
