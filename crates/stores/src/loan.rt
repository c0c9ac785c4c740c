//! A lent store is a store, so that a layer can be laid over a store behind a `&mut`.

ghost use Rattle.std.specs.Prelude.{ℕ};

use crate::store::Store;
use refusals::Refusal;

impl<'a, S: Store> Store for &'a mut S {
    ghost picture = { λ s. S.Store.picture s.now };

    ghost lawful = { λ s. S.Store.lawful s.now };

    ghost Rest = { S.Store.Rest × ℕ };

    ghost rest = { λ s. (S.Store.rest s.now, s.ghost_name) };

    fn planes(&self) -> usize {
        (**self).planes()
    }

    fn width(&self, plane: usize) -> usize {
        (**self).width(plane)
    }

    fn height(&self, plane: usize) -> usize {
        (**self).height(plane)
    }

    fn depth(&self) -> u8 {
        (**self).depth()
    }

    fn show(&self, plane: usize, row: usize, column: usize) -> Result<u16, Refusal> {
        (**self).show(plane, row, column)
    }

    fn put(&mut self, plane: usize, row: usize, column: usize, value: u16) -> Result<(), Refusal> {
        (**self).put(plane, row, column, value)
    }

    fn show_row(
        &self,
        plane: usize,
        row: usize,
        column: usize,
        samples: &mut [u16],
    ) -> Result<(), Refusal> {
        (**self).show_row(plane, row, column, samples)
    }

    fn put_row(
        &mut self,
        plane: usize,
        row: usize,
        column: usize,
        samples: &[u16],
    ) -> Result<(), Refusal> {
        (**self).put_row(plane, row, column, samples)
    }
}
