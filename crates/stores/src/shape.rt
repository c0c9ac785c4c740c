//! What a planar store keeps of its format.

ghost use Rattle.std.specs.Prelude.{◌≡◌, ◌+◌, ◌*◌, ◌^◌, ◌<◌, ◌&&◌, nat_le, nat_lt};
ghost use Rattle.theory.specs.Formats.{plane_width, plane_height};
ghost use Rattle.formats.specs.Meaning.{format_of, part_of};
ghost use Rattle.stores.specs.Shapes.{plane_of, frame_shape, no_shape};

use formats::{Format, Part};
use kinds::GroupKind;

/// The size of a plane.
#[derive(Clone, Copy, Default)]
pub(crate) struct PlaneSize {
    pub(crate) width: usize,
    pub(crate) height: usize,
}

impl PlaneSize {
    /// Whether the plane has a row, and so many columns of it from a column on.
    pub(crate) fn has_columns(&self, row: usize, column: usize, count: usize) -> bool
        ensures { result ≡ (nat_lt row self.now.height && nat_le (column + count) self.now.width) }
    {
        row < self.height && column <= self.width && count <= self.width - column
    }
}

/// A plane in words: its size, and the word at which it begins.
#[derive(Clone, Copy, Default)]
pub(crate) struct Plane {
    pub(crate) size: PlaneSize,
    pub(crate) start: usize,
}

impl Plane {
    // A plane of a frame that begins at this word.
    fn of_frame<K: GroupKind>(frame: &Part<K>, plane: usize, start: usize) -> Plane
        ensures start { result.start ≡ start }
        ensures width { result.size.width ≡ plane_width (part_of K.GroupKind.kind frame.now) plane }
        ensures height { result.size.height ≡ plane_height (part_of K.GroupKind.kind frame.now) plane }
        ensures wide { result.size.width < 2 ^ 16 }
        ensures high { result.size.height < 2 ^ 16 }
    {
        let size = PlaneSize {
            width: frame.plane_width(plane),
            height: frame.plane_height(plane),
        };
        Plane { size, start }
    }

    // The word behind the plane.
    fn end(&self) -> usize
        requires { self.now.start + self.now.size.width * self.now.size.height < 2 ^ 64 }
        ensures { result ≡ self.now.start + self.now.size.width * self.now.size.height }
    {
        self.start + self.size.width * self.size.height
    }
}

/// Up to three planes one behind the other, and the depth. A plane that is not there has size 0.
// An array beside the count, and no Vec: a store takes fixed memory.
#[derive(Clone, Copy)]
pub(crate) struct Shape {
    pub(crate) plane_count: usize,
    pub(crate) planes: [Plane; 3],
    pub(crate) depth: u8,
}

impl Shape {
    /// The shape of a format's frame.
    pub(crate) fn of_frame<K: GroupKind + Copy>(format: &Format<K>) -> Shape
        ensures { result ≡ frame_shape (format_of K.GroupKind.kind format.now) }
    {
        let frame = format.frame();
        let first = Plane::of_frame(&frame, 0, 0);
        let second = Plane::of_frame(&frame, 1, first.end());
        let third = Plane::of_frame(&frame, 2, second.end());
        Shape {
            plane_count: format.kind.plane_count(),
            planes: [first, second, third],
            depth: format.depth,
        }
    }

    /// No planes.
    pub(crate) fn none() -> Shape
        ensures { result ≡ no_shape }
    {
        Shape {
            plane_count: 0,
            planes: [Plane::default(); 3],
            depth: 1,
        }
    }

    /// A plane; one of size 0 where it is not there.
    pub(crate) fn plane(&self, plane: usize) -> Plane
        ensures { result ≡ plane_of self.now plane }
    {
        self.planes.get(plane).copied().unwrap_or_default()
    }
}
