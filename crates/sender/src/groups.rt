//! The groups of a source, run by run.

ghost use Rattle.std.specs.Prelude.{◌≡◌, ℕ, ◌+◌, ◌*◌, ◌^◌, ◌<◌, length};
ghost use Rattle.std.specs.List.{range_with_len};
ghost use Rattle.formats.specs.Meaning.{part_of};
ghost use Rattle.theory.specs.Groups.{group_octets};
ghost use Rattle.theory.specs.Cutting.{concat_map};

use crate::rows::{PLANES, ROW, ROWS};
use crate::runs::Runs;
use crate::source::Source;
use kinds::GroupKind;
use stores::Store;

impl<K: GroupKind, S: Store> Source<'_, K, S> {
    /// Writes so many groups, from one on, each behind the one before it.
    pub(crate) fn write_groups(&self, first: usize, count: usize, out: &mut [u8])
        requires small { (i : ℕ) → i < count → first + i < 2 ^ 32 }
        requires room { length out.old ≡ count * self.now.octets }
        ensures { out.new ≡ concat_map (group_octets (part_of K.GroupKind.kind self.now.part.now) (S.Store.picture self.now.store.now)) (range_with_len first count) }
    {
        let mut words = [[[0; ROW]; ROWS]; PLANES];
        let runs = Runs {
            source: *self,
            next: first,
            left: count,
        };
        // A start beside the runs: they differ in length, so no chunks are theirs.
        let mut start = 0;
        for run in runs {
            let end = start + run.groups * self.octets;
            run.write(&mut words, &mut out[start..end]);
            start = end;
        }
    }
}
