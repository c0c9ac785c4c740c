//! Writing a run of groups: its samples are shown row by row, and each group is packed from them.

ghost use Rattle.std.specs.Prelude.{◌≡◌, ◌+◌, ◌*◌, ◌<◌, length};
ghost use Rattle.std.specs.List.{range_with_len};
ghost use Rattle.kinds.specs.Packing.{packed};
ghost use Rattle.formats.specs.Meaning.{part_of};
ghost use Rattle.theory.specs.Layouts.{LawfulLayout};
ghost use Rattle.theory.specs.Groups.{group_octets};
ghost use Rattle.theory.specs.Cutting.{concat_map};
ghost use Rattle.sender.specs.Rows.{HoldsRun, word_at, words_of};

use crate::depth::{Depth, Fixed};
use crate::rows::Words;
use crate::runs::Run;
use kinds::{GroupKind, pack};
use stores::Store;

// The most samples that a group of any kind has.
const MOST_SAMPLES: usize = 24;

impl<K: GroupKind, S: Store> Run<'_, K, S> {
    /// Writes the groups of the run, each behind the one before it. The depths of the standard are known to the compiler, for speed.
    pub(crate) fn write(&self, words: &mut Words, out: &mut [u8])
        requires { length out.old ≡ self.now.groups * self.now.source.octets }
        ensures { out.new ≡ concat_map (group_octets (part_of K.GroupKind.kind self.now.source.part.now) (S.Store.picture self.now.source.store.now)) (range_with_len (self.now.unit_row * self.now.source.row_groups + self.now.place) self.now.groups) }
    {
        self.show(words);
        match self.source.part.format.depth {
            8 => self.pack(&Fixed::<8>, words, out),
            10 => self.pack(&Fixed::<10>, words, out),
            12 => self.pack(&Fixed::<12>, words, out),
            16 => self.pack(&Fixed::<16>, words, out),
            depth => self.pack(&depth, words, out),
        }
    }

    // Packs the groups of the run from its samples.
    fn pack<D: Depth>(&self, depth: &D, words: &Words, out: &mut [u8])
        requires depth { D.Depth.depth depth.now ≡ self.now.source.part.now.format.depth }
        requires shown { HoldsRun (part_of K.GroupKind.kind self.now.source.part.now) (S.Store.picture self.now.source.store.now) self.now.unit_row self.now.place self.now.groups words.now }
        requires room { length out.old ≡ self.now.groups * self.now.source.octets }
        ensures { out.new ≡ concat_map (group_octets (part_of K.GroupKind.kind self.now.source.part.now) (S.Store.picture self.now.source.store.now)) (range_with_len (self.now.unit_row * self.now.source.row_groups + self.now.place) self.now.groups) }
    {
        let kind = &self.source.part.format.kind;
        let octets = kind.octets(depth.bits());
        // By index: of a loop over `chunks_exact_mut` the library does not say what the octets are afterwards.
        for i in 0..self.groups {
            let start = i * octets;
            pack_group(kind, depth, words, i, &mut out[start..start + octets]);
        }
    }
}

// Packs a group of a run.
fn pack_group<K: GroupKind, D: Depth>(kind: &K, depth: &D, words: &Words, i: usize, out: &mut [u8])
    requires laws { LawfulLayout (K.GroupKind.kind kind.now) (D.Depth.depth depth.now) }
    requires few { i < 64 }
    ensures { let d = D.Depth.depth depth.now in let l = (K.GroupKind.kind kind.now).layout d in out.new ≡ packed l d (words_of l words.now i) out.old }
{
    let bits = depth.bits();
    let positions = kind.positions(bits);
    let mut samples = [0; MOST_SAMPLES];
    for (k, sample) in samples[..positions].iter_mut().enumerate() {
        *sample = word(kind, depth, words, i, k);
    }
    pack(kind, bits, &samples[..positions], out);
}

// The word of a position of a group of a run.
fn word<K: GroupKind, D: Depth>(kind: &K, depth: &D, words: &Words, i: usize, k: usize) -> u16
    requires laws { LawfulLayout (K.GroupKind.kind kind.now) (D.Depth.depth depth.now) }
    requires few { i < 64 }
    requires inside { k < ((K.GroupKind.kind kind.now).layout (D.Depth.depth depth.now)).positions }
    ensures { result ≡ word_at ((K.GroupKind.kind kind.now).layout (D.Depth.depth depth.now)) words.now i k }
{
    let bits = depth.bits();
    let plane = kind.position_plane(bits, k);
    let row = kind.position_row(bits, k);
    let width = kind.columns(bits) / kind.column_step(bits, plane);
    words[plane][row][i * width + kind.position_column(bits, k)]
}
