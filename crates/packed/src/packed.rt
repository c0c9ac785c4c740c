//! The packed picture store: octets as on the wire.

ghost use Rattle.std.specs.Prelude.{◌≡◌, ℕ, true, List, length};
ghost use Rattle.refusals.specs.Numbers.{numbered};
ghost use Rattle.theory.specs.Octets.{AllOctets};
ghost use Rattle.theory.specs.Pictures.{put_answer, put_after};
ghost use Rattle.stores.specs.Keeping.{IfRefused};
ghost use Rattle.packed.specs.BitRuns.{bit_at};
ghost use Rattle.formats.specs.Meaning.{format_of};
ghost use Rattle.formats.specs.Frames.{frame_of};
ghost use Rattle.packed.specs.Packs.{packed_check, accepted, packed_frame, frame_beside, bit_of};
ghost use Rattle.packed.specs.Grids.{Sound, grid_picture, grid_beside, first_bit, grid_lawful, bit_left, Unchanged, unchanged};

use crate::frame;
use crate::grid::Grid;
use formats::Format;
use kinds::GroupKind;
use refusals::Refusal;
use stores::Store;

/// A frame in lent octets, as they stand on the wire: group after group, unit row after unit row, without gaps, fill included.
#[derive(Drop)]
pub struct Packed<'a> {
    grid: Grid,
    octets: &'a mut [u8],
    ghost sound: { Sound grid (length octets.now) },
}

impl<'a> Packed<'a> {
    /// Whether `new` makes a store of the format over these octets: refusal 4 outside the limits, then 3 where there are too few.
    pub fn check<K: GroupKind + Copy>(format: &Format<K>, octets: &[u8]) -> Result<(), Refusal>
        ensures { numbered result ≡ packed_check (format_of K.GroupKind.kind format.now) (length octets.now) }
    {
        frame::check(format, octets)
    }

    /// A store of the format's whole frame over these octets; one without planes, of depth 1, where the check refuses.
    /// So it is, too, of whatever the octets hold later (`later`, `beside`), and each sample has its place in them (`first`).
    pub fn new<K: GroupKind + Copy>(format: &Format<K>, octets: &'a mut [u8]) -> Packed<'a>
        ensures picture { grid_picture result.grid result.octets.now ≡ packed_frame (format_of K.GroupKind.kind format.now) octets.old }
        ensures later { (m : List ℕ) → length m ≡ length octets.old → AllOctets m → grid_picture result.grid m ≡ packed_frame (format_of K.GroupKind.kind format.now) m }
        ensures beside { (m : List ℕ) → length m ≡ length octets.old → grid_beside result.grid m ≡ frame_beside (format_of K.GroupKind.kind format.now) m }
        ensures first { accepted (format_of K.GroupKind.kind format.now) (length octets.old) ≡ true → (p s c : ℕ) → first_bit result.grid p s c ≡ bit_of (frame_of (format_of K.GroupKind.kind format.now)) p s c }
        ensures octets { result.octets.now ≡ octets.old }
        ensures memory { result.octets.ghost_name ≡ octets.entry.ghost_name }
    {
        let grid = Grid::new(format, octets);
        Packed { grid, octets }
    }
}

impl<'a> Store for Packed<'a> {
    ghost picture = { λ s. grid_picture s.grid s.octets.now };

    ghost lawful = { λ s. grid_lawful s.grid s.octets.now s.sound.none };

    ghost Rest = { Unchanged };

    ghost rest = { λ s. unchanged s.octets.ghost_name s.grid s.octets.now };

    fn planes(&self) -> usize {
        self.grid.plane_count as usize
    }

    fn width(&self, plane: usize) -> usize {
        self.grid.width(plane)
    }

    fn height(&self, plane: usize) -> usize {
        self.grid.height(plane)
    }

    fn depth(&self) -> u8 {
        self.grid.depth
    }

    fn show(&self, plane: usize, row: usize, column: usize) -> Result<u16, Refusal> {
        let run = self
            .grid
            .run(plane, row, column)
            .ok_or(Refusal::NoSuchPlace)?;
        Ok(run.read(self.octets))
    }

    fn put(&mut self, plane: usize, row: usize, column: usize, value: u16) -> Result<(), Refusal>
        ensures answer { numbered result ≡ put_answer (grid_picture self.old.grid self.old.octets.now) plane row column value }
        ensures picture { grid_picture self.new.grid self.new.octets.now ≡ put_after (grid_picture self.old.grid self.old.octets.now) plane row column value }
        ensures rest { unchanged self.new.octets.ghost_name self.new.grid self.new.octets.now ≡ unchanged self.old.octets.ghost_name self.old.grid self.old.octets.now }
        ensures kept { IfRefused result (self.new ≡ self.old) }
        ensures bits { (k : ℕ) → bit_at self.new.octets.now k ≡ bit_left self.old.grid self.old.octets.now plane row column value k }
        ensures memory { self.new.octets.ghost_name ≡ self.old.octets.ghost_name }
    {
        let run = self
            .grid
            .run(plane, row, column)
            .ok_or(Refusal::NoSuchPlace)?;
        if run.overflows(value) {
            return Err(Refusal::ValueTooLarge);
        }
        run.write(self.octets, value);
        Ok(())
    }
}
