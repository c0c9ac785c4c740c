//! A script: its lines, and what is done with the commands that want no stream.

ghost use Rattle.std.specs.Prelude.{◌<◌, ◌≤◌, length, IfOk, IfSome};

use crate::command::Command;
use crate::demo::demonstrate;
use crate::stream::with_stream;
use crate::timing::time_frames;
use std::{io, str};

/// The lines of a script that are still to be done, and how many are done.
#[derive(Clone, Copy)]
pub struct Script<'a> {
    rest: &'a [Vec<u8>],
    done: usize,
}

impl<'a> Script<'a> {
    pub fn new(lines: &'a [Vec<u8>]) -> Script<'a> {
        Script {
            rest: lines,
            done: 0,
        }
    }

    /// The next command, if it is wanted; any other stays to be done. Says which line it takes.
    /// Passes empty lines over, and says how a line should read that is no command.
    pub fn next_if<F: Fn(&Command<'a>) -> bool>(
        &mut self,
        rt: &HostRuntime,
        wanted: F,
    ) -> io::Result<Option<Command<'a>>>
        requires { F.IsAlwaysCallable wanted }
        ensures shorter { length self.new.rest.now ≤ length self.old.rest.now }
        ensures taken { IfOk result (λ r. IfSome r (λ _. length self.new.rest.now < length self.old.rest.now)) }
    {
        while let Some((line, rest)) = self.rest.split_first() {
            let command = command_of(line);
            if let Ok(Some(command)) = command
                && !wanted(&command)
            {
                return Ok(None);
            }
            self.rest = rest;
            self.done = self.done.saturating_add(1);
            let number = self.done;
            match command {
                Ok(None) => (),
                Ok(Some(command)) => {
                    println!(rt; "line {number}:")?;
                    return Ok(Some(command));
                }
                Err(usage) => println!(rt; "line {number}:\nnot understood: write {usage}")?,
            }
        }
        Ok(None)
    }
}

// The command of a line, if there is one.
fn command_of(line: &[u8]) -> Result<Option<Command<'_>>, &'static str> {
    // A line of a session description ends in a carriage return.
    let line = line.strip_suffix(b"\r").unwrap_or(line);
    Command::parse(str::from_utf8(line).map_err(|_| "text in UTF-8")?)
}

/// Does the commands of a script.
pub fn run_script<'a>(rt: &'a HostRuntime, script: &mut Script<'a>) -> anyhow::Result<()> {
    while let Some(command) = script.next_if(rt, |_| true)? {
        match command {
            Command::Demo => demonstrate(rt)?,
            Command::Time => time_frames(rt)?,
            Command::Format(stream, line) => with_stream(rt, script, stream, line)?,
            Command::Read(_, _) | Command::Store(_) => {
                println!(rt; "not done: give a format first")?;
            }
            Command::Ramp
            | Command::Show(_)
            | Command::Put(_, _)
            | Command::Send(_, _)
            | Command::Open(_) => println!(rt; "not done: give a store first")?,
            Command::Packet(_) | Command::Count | Command::Close => {
                println!(rt; "not done: open a part first")?;
            }
        }
    }
    Ok(())
}
