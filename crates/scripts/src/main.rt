//! Reads a script from standard input, one command a line, and says what came of each; `command.rt` lists the commands.
//! Commands that want a stream, a store or an open part stand below the command that gives it.
#![tactic(auto)]

mod command;
mod demo;
mod part;
mod reading;
mod script;
mod sending;
mod shuffled;
mod store;
mod stranger;
mod stream;
mod timing;

use crate::script::{Script, run_script};
use std::io::{BufRead, BufReader};

fn main(rt: HostRuntime) -> anyhow::Result<()> {
    run(&rt)
}

fn run(rt: &HostRuntime) -> anyhow::Result<()> {
    let mut lines = Vec::new(rt.alloc());
    for line in BufReader::new(rt.alloc(), rt.stdin())?.split(rt.alloc(), b'\n') {
        lines.push(line?)?;
    }
    run_script(rt, &mut Script::new(&lines))
}
