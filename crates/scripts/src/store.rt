//! What is done with a store: its samples are shown and put, its parts sent, and parts opened to receive.

ghost use Rattle.std.specs.Prelude.{◌≤◌, length};

use crate::command::{Command, PartName, Place};
use crate::part::with_part;
use crate::reading::InHex;
use crate::script::Script;
use crate::sending::draw_all;
use formats::{Format, Scan};
use kinds::GroupKind;
use receiver::Idle;
use reports::Refused;
use std::io;
use stores::{Field, Store};

/// Does the commands that want a store.
pub fn with_store<K: GroupKind + Copy, S: Store>(
    rt: &HostRuntime,
    script: &mut Script,
    format: &Format<K>,
    store: &mut S,
) -> anyhow::Result<()>
    ensures { length script.new.rest.now ≤ length script.old.rest.now }
{
    while let Some(command) = script.next_if(rt, Command::is_for_store)? {
        match command {
            Command::Show(place) => show(rt, store, place)?,
            Command::Put(place, value) => put(rt, store, place, value)?,
            Command::Send(part, sequence) => send(rt, format, store, part, sequence)?,
            Command::Open(part) => open_part(rt, script, format, store, part)?,
            Command::Ramp => {
                put_ramp(store);
                println!(rt; "done")?;
            }
            // `next_if` lets no other through.
            _ => (),
        }
    }
    Ok(())
}

/// Shows a sample.
pub fn show<S: Store>(rt: &HostRuntime, store: &S, place: Place) -> io::Result<()> {
    match store.show(place.plane, place.row, place.column) {
        Ok(value) => println!(rt; "sample {value}"),
        Err(refusal) => println!(rt; "{}", Refused(refusal)),
    }
}

/// Puts a sample.
pub fn put<S: Store>(rt: &HostRuntime, store: &mut S, place: Place, value: u16) -> io::Result<()> {
    match store.put(place.plane, place.row, place.column, value) {
        Ok(()) => println!(rt; "done"),
        Err(refusal) => println!(rt; "{}", Refused(refusal)),
    }
}

/// Makes each sample the sum of its plane, row and column, modulo 2^depth.
pub fn put_ramp<S: Store>(store: &mut S) {
    for plane in 0..store.planes() {
        for row in 0..store.height(plane) {
            put_ramp_row(store, plane, row);
        }
    }
}

fn put_ramp_row<S: Store>(store: &mut S, plane: usize, row: usize) {
    let mask = ramp_mask(store.depth());
    for column in 0..store.width(plane) {
        let sum = plane.wrapping_add(row).wrapping_add(column);
        let _ = store.put(plane, row, column, (sum & 0xffff) as u16 & mask);
    }
}

// The largest sample of a depth.
fn ramp_mask(depth: u8) -> u16 {
    ((1u32 << depth.min(16)) - 1) as u16
}

// Sends a part of the store's frame, and says what each packet is.
fn send<K: GroupKind + Copy, S: Store>(
    rt: &HostRuntime,
    format: &Format<K>,
    store: &mut S,
    part: PartName,
    sequence: u32,
) -> anyhow::Result<()> {
    let part = part.of(format);
    let print = |packet: &[u8]| -> anyhow::Result<()> {
        Ok(println!(rt; "packet {}", InHex(packet))?)
    };
    let sent = if format.scan == Scan::Progressive as u8 {
        draw_all(&part, store, sequence, print)?
    } else {
        draw_all(&part, &Field::new(store, part.field), sequence, print)?
    };
    match sent {
        Ok(sent) => {
            let next = sent.next_sequence();
            println!(rt; "sent, next sequence number {next}")?;
        }
        Err(refusal) => println!(rt; "{}", Refused(refusal))?,
    }
    Ok(())
}

// Opens a part, and does its commands.
fn open_part<K: GroupKind + Copy, S: Store>(
    rt: &HostRuntime,
    script: &mut Script,
    format: &Format<K>,
    store: &mut S,
    part: PartName,
) -> anyhow::Result<()>
    ensures { length script.new.rest.now ≤ length script.old.rest.now }
{
    let octets = part.of(format).map_octets();
    let mut map = vec![in rt.alloc(); 0u8; octets]?;
    let map = map.as_mut_slice();
    match Idle.open(*format, part.timestamp, part.field, map) {
        Ok(opened) => {
            println!(rt; "opened")?;
            if format.scan == Scan::Progressive as u8 {
                with_part(rt, script, opened, store, map)
            } else {
                with_part(rt, script, opened, &mut Field::new(store, part.field), map)
            }
        }
        Err((_, refusal)) => Ok(println!(rt; "{}", Refused(refusal))?),
    }
}
