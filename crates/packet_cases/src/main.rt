//! Tries a table of packets. Each row of standard input has a letter for the format, a timestamp, a field and a packet in hex; then the
//! answer that is due: the number of the refusal, or 0 with the marker, the number of segments and five numbers for each segment.
//! Says which rows differ, and how many agree.
#![tactic(auto)]

mod parts;
mod row;
mod words;

use std::io::{BufRead, BufReader};

fn main(rt: HostRuntime) -> anyhow::Result<()> {
    let mut agree: u64 = 0;
    let mut differ: u64 = 0;
    let rows = BufReader::new(rt.alloc(), rt.stdin())?.split(rt.alloc(), b'\n');
    for (i, row) in rows.enumerate() {
        let row = row?;
        if row.first() == Some(&b'#') {
            continue;
        }
        if row::is_answered(&row) {
            agree = agree.saturating_add(1);
        } else {
            differ = differ.saturating_add(1);
            let number = i.saturating_add(1);
            println!(rt; "row {number}: another answer")?;
        }
    }
    println!(rt; "{agree} answers agree, {differ} differ")?;
    Ok(())
}
