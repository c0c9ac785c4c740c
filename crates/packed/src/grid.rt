//! Where each sample of a frame lies in octets as on the wire.

ghost use Rattle.std.specs.Prelude.{◌≡◌, ◌+◌, ◌*◌, ◌<◌, ◌≤◌, ◌&&◌, is_some, IfSome, nat_lt};
ghost use Rattle.packed.specs.Packs.{Covered};

use crate::bits::BitRun;

/// Columns and rows of one plane, in the frame and inside a group: where the plane has rows, a group has rows and columns of it.
#[derive(Clone, Copy)]
pub(crate) struct PlaneSizes {
    pub(crate) width: u16,
    pub(crate) height: u16,
    pub(crate) group_width: u8,
    pub(crate) group_height: u8,
    ghost covered: { Covered height group_height group_width },
}

/// A place inside a group.
#[derive(Clone, Copy, Default, PartialEq, Eq)]
pub(crate) struct Place {
    pub(crate) plane: u8,
    pub(crate) row: u8,
    pub(crate) column: u8,
}

/// Plain copies of what a format and its kind tell. Arrays beside their counts, and no Vec: a store takes fixed memory.
#[derive(Clone, Copy)]
pub(crate) struct Grid {
    pub(crate) plane_count: u8,
    pub(crate) depth: u8,
    pub(crate) planes: [PlaneSizes; 3],
    /// Groups of a unit row.
    pub(crate) row_groups: u16,
    /// Octets and positions of a group.
    pub(crate) octets: u8,
    pub(crate) positions: u8,
    /// The place of each position.
    pub(crate) places: [Place; 24],
    /// Octets of all groups.
    pub(crate) size: usize,
    ghost deep: { 1 ≤ depth },
    ghost narrow: { depth ≤ 16 },
    ghost few: { positions ≤ 24 },
}

impl Grid {
    ghost use Rattle.packed.specs.Grids.{width_at, height_at, position_at, first_bit};

    /// Columns of a plane; 0 of any other.
    pub(crate) fn width(&self, plane: usize) -> usize
        ensures value { result ≡ width_at self.now plane }
        ensures bound { result ≤ 65535 }
    {
        self.planes
            .get(plane)
            .map_or(0, |sizes| sizes.width as usize)
    }

    /// Rows of a plane; 0 of any other.
    pub(crate) fn height(&self, plane: usize) -> usize
        ensures value { result ≡ height_at self.now plane }
        ensures bound { result ≤ 65535 }
    {
        self.planes
            .get(plane)
            .map_or(0, |sizes| sizes.height as usize)
    }

    // The position of a place inside the group.
    fn position(&self, place: Place) -> usize
        ensures value { result ≡ position_at self.now place.plane place.row place.column }
        ensures bound { result ≤ 24 }
    {
        let positions = self.positions as usize;
        self.places[..positions]
            .iter()
            .position(|p| *p == place)
            .unwrap_or(positions)
    }

    /// The bits of a place; `None` where there is no such place.
    pub(crate) fn run(&self, plane: usize, row: usize, column: usize) -> Option<BitRun>
        ensures place { is_some result ≡ (nat_lt row (height_at self.now plane) && nat_lt column (width_at self.now plane)) }
        ensures bits { IfSome result (λ r. (r.first ≡ first_bit self.now plane row column) × (r.depth ≡ self.now.depth)) }
    {
        let sizes = self.planes.get(plane)?;
        if row >= sizes.height as usize || column >= sizes.width as usize {
            return None;
        }
        let height = sizes.group_height as usize;
        let width = sizes.group_width as usize;
        let group = row / height * self.row_groups as usize + column / width;
        let position = self.position(Place {
            plane: plane as u8,
            row: (row % height) as u8,
            column: (column % width) as u8,
        });
        Some(BitRun {
            first: group * (self.octets as usize * 8) + position * self.depth as usize,
            depth: self.depth,
        })
    }
}
