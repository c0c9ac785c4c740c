//! The grid of a format's whole frame: what the format and its kind tell, copied.

ghost use Rattle.std.specs.Prelude.{◌≡◌, ◌<◌, true, length};
ghost use Rattle.refusals.specs.Numbers.{numbered};
ghost use Rattle.theory.specs.Octets.{AllOctets};
ghost use Rattle.theory.specs.Formats.{lawful_format};
ghost use Rattle.formats.specs.Meaning.{format_of};
ghost use Rattle.formats.specs.Frames.{frame_of};
ghost use Rattle.packed.specs.Packs.{packed_check};
ghost use Rattle.packed.specs.Grids.{SizesOf, PlaceOf, Copies, empty_grid, Made};

use crate::grid::{Grid, Place, PlaneSizes};
use formats::Format;
use kinds::GroupKind;
use refusals::Refusal;
use std::array;

/// Whether octets can keep the frame of a format: refusal 4 outside the limits, then 3 where there are too few.
pub(crate) fn check<K: GroupKind + Copy>(format: &Format<K>, octets: &[u8]) -> Result<(), Refusal>
    ensures { numbered result ≡ packed_check (format_of K.GroupKind.kind format.now) (length octets.now) }
{
    format.check()?;
    if octets.len() < format.packed_octets() {
        return Err(Refusal::MemoryTooShort);
    }
    Ok(())
}

impl PlaneSizes {
    // The sizes of a plane of the whole frame.
    fn of<K: GroupKind + Copy>(format: &Format<K>, plane: usize) -> PlaneSizes
        requires { lawful_format (format_of K.GroupKind.kind format.now) ≡ true }
        ensures { SizesOf result (frame_of (format_of K.GroupKind.kind format.now)) plane }
    {
        let frame = format.frame();
        let kind = &format.kind;
        let depth = format.depth;
        let columns = kind
            .columns(depth)
            .checked_div(kind.column_step(depth, plane));
        let rows = kind.group_rows().checked_div(kind.row_step(depth, plane));
        PlaneSizes {
            width: frame.plane_width(plane) as u16,
            height: frame.plane_height(plane) as u16,
            group_width: columns.unwrap_or(0) as u8,
            group_height: rows.unwrap_or(0) as u8,
        }
    }
}

impl Place {
    // The place of a position, of a kind that has the depth.
    fn of<K: GroupKind>(kind: &K, depth: u8, k: usize) -> Place
        requires { 0 < ((K.GroupKind.kind kind.now).layout depth).octets }
        ensures { PlaceOf result ((K.GroupKind.kind kind.now).layout depth) k }
    {
        Place {
            plane: kind.position_plane(depth, k) as u8,
            row: kind.position_row(depth, k) as u8,
            column: kind.position_column(depth, k) as u8,
        }
    }
}

impl Grid {
    /// The grid of a store over these octets: that of the format's frame, and the empty one where the check refuses.
    pub(crate) fn new<K: GroupKind + Copy>(format: &Format<K>, octets: &[u8]) -> Grid
        ensures made { Made (format_of K.GroupKind.kind format.now) (length octets.now) result }
        ensures octets { AllOctets octets.now }
    {
        match check(format, octets) {
            Ok(()) => Grid::of(format),
            Err(_) => Grid::empty(),
        }
    }

    // The grid of the whole frame.
    fn of<K: GroupKind + Copy>(format: &Format<K>) -> Grid
        requires { lawful_format (format_of K.GroupKind.kind format.now) ≡ true }
        ensures { Copies result (frame_of (format_of K.GroupKind.kind format.now)) }
    {
        Grid {
            plane_count: format.kind.plane_count() as u8,
            depth: format.depth,
            planes: array::from_fn(|p| PlaneSizes::of(format, p)),
            row_groups: format.row_groups() as u16,
            octets: format.group_octets() as u8,
            positions: format.kind.positions(format.depth) as u8,
            places: array::from_fn(|k| Place::of(&format.kind, format.depth, k)),
            size: format.packed_octets(),
        }
    }

    // No planes, and depth 1.
    fn empty() -> Grid
        ensures { result ≡ empty_grid }
    {
        let no_sizes = PlaneSizes {
            width: 0,
            height: 0,
            group_width: 0,
            group_height: 0,
        };
        Grid {
            plane_count: 0,
            depth: 1,
            planes: [no_sizes; 3],
            row_groups: 0,
            octets: 0,
            positions: 0,
            places: [Place::default(); 24],
            size: 0,
        }
    }
}
