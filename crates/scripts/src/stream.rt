//! What is done with a stream: its format line is read, its format made for the kind of its sampling, and its commands done.

ghost use Rattle.std.specs.Prelude.{◌≤◌, length};

use crate::command::{Command, Layout};
use crate::reading::print_packet;
use crate::script::Script;
use crate::store::with_store;
use fmtp::Listing;
use formats::{Format, SampledKind};
use kinds::GroupKind;
use packed::Packed;
use reports::{FormatTask, Geometry, Refused, Stream, with_format};
use stores::Planar;

/// Says what a stream's format line announces, and does the commands of the stream.
pub fn with_stream<'a>(
    rt: &'a HostRuntime,
    script: &mut Script<'a>,
    stream: Stream,
    line: &str,
) -> anyhow::Result<()>
    ensures { length script.new.rest.now ≤ length script.old.rest.now }
{
    let record = match fmtp::read(line.as_bytes()) {
        Ok(record) => record,
        Err(refusal) => return Ok(println!(rt; "{}", Refused(refusal))?),
    };
    print!(rt; "{}", Listing(&record))?;
    // The script is copied in and out: what a reference in a task ends with is not known behind it.
    let mut commands = Commands {
        rt,
        script: *script,
    };
    let done = with_format(&record, stream, &mut commands);
    *script = commands.script;
    match done {
        Ok(done) => done,
        Err(refusal) => Ok(println!(rt; "{}", Refused(refusal))?),
    }
}

// The commands of a script that hang on a stream.
#[derive(Drop)]
struct Commands<'a> {
    rt: &'a HostRuntime,
    script: Script<'a>,
}

impl FormatTask for Commands<'_> {
    type Out = anyhow::Result<()>;

    ghost Leaves = { λ before _ _ after. length after.script.rest.now ≤ length before.script.rest.now };

    fn run<K: SampledKind + Copy>(&mut self, format: &Format<K>) -> anyhow::Result<()> {
        print!(self.rt; "{}", Geometry(format))?;
        do_commands(self.rt, &mut self.script, format)
    }
}

// Does the commands that want a format and no store.
fn do_commands<K: GroupKind + Copy>(
    rt: &HostRuntime,
    script: &mut Script,
    format: &Format<K>,
) -> anyhow::Result<()>
    ensures { length script.new.rest.now ≤ length script.old.rest.now }
{
    while let Some(command) = script.next_if(rt, Command::is_for_stream)? {
        match command {
            Command::Read(part, hex) => print_packet(rt, &part.of(format), hex)?,
            // Two arms, of which each has what its store alone has: its memory, and how it is made over it.
            Command::Store(Layout::Planar) => {
                let mut words = vec![in rt.alloc(); 0u16; format.planar_words()]?;
                println!(rt; "done")?;
                let mut store = Planar::new(format, words.as_mut_slice());
                with_store(rt, script, format, &mut store)?;
            }
            Command::Store(Layout::Packed) => {
                let mut octets = vec![in rt.alloc(); 0u8; format.packed_octets()]?;
                println!(rt; "done")?;
                let mut store = Packed::new(format, octets.as_mut_slice());
                with_store(rt, script, format, &mut store)?;
            }
            // `next_if` lets no other through.
            _ => (),
        }
    }
    Ok(())
}
