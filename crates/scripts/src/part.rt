//! What is done with an open part: packets are offered and missing groups counted, until it is closed.

ghost use Rattle.std.specs.Prelude.{◌≤◌, length};

use crate::command::Command;
use crate::reading::octets_of;
use crate::script::Script;
use crate::store::{put, show};
use kinds::GroupKind;
use receiver::Open;
use reports::Refused;
use std::io;
use stores::Store;

/// Does the commands of an open part, and closes it.
pub fn with_part<K: GroupKind + Copy, S: Store>(
    rt: &HostRuntime,
    script: &mut Script,
    part: Open<K>,
    store: &mut S,
    map: &mut [u8],
) -> anyhow::Result<()>
    ensures { length script.new.rest.now ≤ length script.old.rest.now }
{
    while let Some(command) = script.next_if(rt, Command::is_for_part)? {
        match command {
            Command::Packet(hex) => offer(rt, &part, store, map, hex)?,
            Command::Count => count(rt, &part, store, map)?,
            Command::Show(place) => show(rt, store, place)?,
            Command::Put(place, value) => put(rt, store, place, value)?,
            Command::Close => {
                println!(rt; "closed")?;
                break;
            }
            // `next_if` lets no other through.
            _ => (),
        }
    }
    let _idle = part.close();
    Ok(())
}

fn offer<K: GroupKind + Copy, S: Store>(
    rt: &HostRuntime,
    part: &Open<K>,
    store: &mut S,
    map: &mut [u8],
    hex: &str,
) -> anyhow::Result<()> {
    let Some(packet) = octets_of(rt, hex)? else {
        return Ok(());
    };
    match part.take(&packet, store, map) {
        Ok(groups) => println!(rt; "taken, new groups {groups}")?,
        Err(refusal) => println!(rt; "{}", Refused(refusal))?,
    }
    Ok(())
}

/// Says how many groups are missing.
pub fn count<K: GroupKind + Copy, S: Store>(
    rt: &HostRuntime,
    part: &Open<K>,
    store: &S,
    map: &[u8],
) -> io::Result<()> {
    match part.survey(store, map) {
        Ok(groups) => println!(rt; "missing groups {groups}"),
        Err(refusal) => println!(rt; "{}", Refused(refusal)),
    }
}
