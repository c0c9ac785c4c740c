//! Tries a table of format lines: each line of standard input has a number, a blank and a format line, and
//! the number is that of the refusal, or 0 where the line is read. Says which answers differ, and how many agree.
#![tactic(auto)]

use fmtp::read;
use std::io::{BufRead, BufReader};

fn main(rt: HostRuntime) -> anyhow::Result<()> {
    let mut agree: u64 = 0;
    let mut differ: u64 = 0;
    for row in BufReader::new(rt.alloc(), rt.stdin())?.split(rt.alloc(), b'\n') {
        let row = row?;
        if row.first() == Some(&b'#') {
            continue;
        }
        let (due, line) = parted(&row);
        // 0 is the table's word for a line that is read.
        let answer = read(line)
            .err()
            .map_or(0, |refusal| u32::from(refusal.number()));
        if answer == due {
            agree = agree.saturating_add(1);
        } else {
            differ = differ.saturating_add(1);
            println!(rt; "answered {answer}, not {due}: {line:?}")?;
        }
    }
    println!(rt; "{agree} answers agree, {differ} differ")?;
    Ok(())
}

// The number in front of the first blank, and the line behind it. A row without a blank is all line, and its number is one that nothing gets.
fn parted(row: &[u8]) -> (u32, &[u8]) {
    match row.iter().position(|octet| *octet == b' ') {
        Some(blank) => (number_of(&row[..blank]), &row[blank + 1..]),
        None => (u32::MAX, row),
    }
}

// A decimal number. Whatever else stands there gives some number too, as a row of the table is never refused.
fn number_of(digits: &[u8]) -> u32 {
    digits.iter().fold(0, |number: u32, digit| {
        let value = u32::from(digit.wrapping_sub(b'0'));
        number.wrapping_mul(10).wrapping_add(value)
    })
}
