//! A format for people.

use formats::{Format, Part, Scan};
use kinds::GroupKind;
use std::fmt;

/// Shows what follows from a format: groups, rows, planes and memory.
#[derive(Clone, Copy)]
pub struct Geometry<'a, K>(pub &'a Format<K>);

impl<K: GroupKind + Copy> fmt::Display for Geometry<'_, K> {
    fn fmt<W: fmt::Write>(&self, f: &mut fmt::Formatter<W>) -> fmt::Result {
        let format = self.0;
        let payload_type = format.payload_type;
        let ssrc = format.ssrc;
        writeln!(f, "format         payload type {payload_type}, SSRC {ssrc}")?;
        let octets = format.group_octets();
        let columns = format.group_columns();
        let groups = format.row_groups();
        writeln!(
            f,
            "group          octets {octets}, columns {columns}, groups in a row {groups}"
        )?;
        let planar = format.planar_words().saturating_mul(2);
        let packed = format.packed_octets();
        writeln!(f, "frame          octets planar {planar}, packed {packed}")?;
        write_part(format, 0, f)?;
        if format.scan != Scan::Progressive as u8 {
            write_part(format, 1, f)?;
        }
        Ok(())
    }
}

fn write_part<K: GroupKind + Copy, W: fmt::Write>(
    format: &Format<K>,
    field: u8,
    f: &mut fmt::Formatter<W>,
) -> fmt::Result {
    let part = Part {
        format: *format,
        timestamp: 0,
        field,
    };
    let rows = part.rows();
    let groups = part.groups();
    let octets = part.map_octets();
    write!(
        f,
        "part {field}         rows {rows}, groups {groups}, octets of the map {octets}, planes"
    )?;
    for plane in 0..format.kind.plane_count() {
        let width = part.plane_width(plane);
        let height = part.plane_height(plane);
        write!(f, " {width} x {height}")?;
    }
    writeln!(f, "")
}
