//! Runs of groups: a walk over groups stops at the ends of unit rows.

ghost use Rattle.std.specs.Prelude.{◌≡◌, ℕ, ◌+◌, ◌^◌, ◌<◌, ◌≤◌};
ghost use Rattle.std.specs.Iterator.{at_most};
ghost use Rattle.sender.specs.Rows.{ShortRun};

use crate::source::Source;
use kinds::GroupKind;
use stores::Store;

/// The most groups of a run.
pub(crate) const MOST_GROUPS: usize = 64;

/// Groups of one unit row of a source, from a place there on.
#[derive(Drop)]
pub(crate) struct Run<'a, K: GroupKind, S: Store> {
    pub(crate) source: Source<'a, K, S>,
    pub(crate) unit_row: usize,
    pub(crate) place: usize,
    pub(crate) groups: usize,
    ghost short: { ShortRun unit_row place groups },
    ghost inside: { place + groups ≤ source.row_groups },
}

/// The runs of so many groups, from one on.
#[derive(Drop)]
pub(crate) struct Runs<'a, K: GroupKind, S: Store> {
    pub(crate) source: Source<'a, K, S>,
    pub(crate) next: usize,
    pub(crate) left: usize,
    ghost small: { (i : ℕ) → i < left → next + i < 2 ^ 32 },
}

impl<'a, K: GroupKind, S: Store> Iterator for Runs<'a, K, S> {
    ghost use Rattle.sender.specs.Runs.{WalksRuns};

    type Item = Run<'a, K, S>;

    ghost next_gives = { WalksRuns };

    ghost remaining = { λ s. at_most s.left };

    fn next(&mut self) -> Option<Run<'a, K, S>> {
        if self.left == 0 {
            return None;
        }
        let source = self.source;
        let first = self.next;
        let place = first % source.row_groups;
        let groups = MOST_GROUPS.min(self.left).min(source.row_groups - place);
        self.left -= groups;
        self.next += groups;
        Some(Run {
            source,
            unit_row: first / source.row_groups,
            place,
            groups,
        })
    }
}
