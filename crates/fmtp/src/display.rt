//! A record for people: a line for each parameter, with its name and its value as in a format line.

use crate::tokens::Token;
use records::{Ratio, Record};
use std::fmt;

/// Shows a record; a parameter that the line left out has its default, marked as such.
#[derive(Clone, Copy)]
pub struct Listing<'a>(pub &'a Record);

impl fmt::Display for Listing<'_> {
    fn fmt<W: fmt::Write>(&self, f: &mut fmt::Formatter<W>) -> fmt::Result {
        write_required(self.0, f)?;
        write_optional(self.0, f)
    }
}

fn write_required<W: fmt::Write>(r: &Record, f: &mut fmt::Formatter<W>) -> fmt::Result {
    writeln!(f, "sampling       {}", r.sampling.text())?;
    writeln!(f, "depth          {}", r.depth.text())?;
    writeln!(f, "width          {}", r.width)?;
    writeln!(f, "height         {}", r.height)?;
    writeln!(f, "exactframerate {}", FrameRate(r.frame_rate))?;
    writeln!(f, "colorimetry    {}", r.colorimetry.text())?;
    writeln!(f, "PM             {}", r.packing.text())?;
    writeln!(f, "SSN            {}", r.edition.text())
}

fn write_optional<W: fmt::Write>(r: &Record, f: &mut fmt::Formatter<W>) -> fmt::Result {
    let Ratio {
        numerator,
        denominator,
    } = r.pixel_aspect_or_default();
    writeln!(f, "interlace      {}", yes_or_no(r.interlace))?;
    writeln!(f, "segmented      {}", yes_or_no(r.segmented))?;
    writeln!(
        f,
        "TCS            {}{}",
        r.transfer_or_default().text(),
        mark(&r.transfer)
    )?;
    writeln!(
        f,
        "RANGE          {}{}",
        r.range_or_default().text(),
        mark(&r.range)
    )?;
    writeln!(
        f,
        "MAXUDP         {}{}",
        r.max_udp_or_default(),
        mark(&r.max_udp)
    )?;
    writeln!(
        f,
        "PAR            {numerator}:{denominator}{}",
        mark(&r.pixel_aspect)
    )
}

// A whole number of frames a second has no denominator.
#[derive(Clone, Copy)]
struct FrameRate(Ratio);

impl fmt::Display for FrameRate {
    fn fmt<W: fmt::Write>(&self, f: &mut fmt::Formatter<W>) -> fmt::Result {
        let Ratio {
            numerator,
            denominator,
        } = self.0;
        if denominator == 1 {
            write!(f, "{numerator}")
        } else {
            write!(f, "{numerator}/{denominator}")
        }
    }
}

fn yes_or_no(flag: bool) -> &'static str {
    if flag { "yes" } else { "no" }
}

fn mark<T>(value: &Option<T>) -> &'static str {
    if value.is_some() { "" } else { " (default)" }
}
