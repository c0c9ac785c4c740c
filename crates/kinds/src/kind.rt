//! What a kind of group is: how many octets a group has, what it covers, and which sample stands at each position.

ghost use Rattle.std.specs.Prelude.{◌≡◌};
ghost use Rattle.theory.specs.Layouts.{Kind, LawfulKind};

/// A sampling family: how its groups are laid out at each of its depths. Every question answers 0 for another depth, plane or position.
pub trait GroupKind {
    /// The planes of a picture.
    const PLANES: usize;

    /// The rows that a group covers.
    const ROWS: usize;

    /// What the kind is, in the words of the definitions.
    ghost kind: { Self → Kind };

    /// The planes of a picture: `PLANES`.
    fn plane_count(&self) -> usize
        ensures { result ≡ (kind self.now).planes };

    /// The rows that a group covers: `ROWS`.
    fn group_rows(&self) -> usize
        ensures { result ≡ (kind self.now).rows };

    /// The octets of a group.
    fn octets(&self, depth: u8) -> usize
        ensures { result ≡ ((kind self.now).layout depth).octets };

    /// The columns that a group covers.
    fn columns(&self, depth: u8) -> usize
        ensures { result ≡ ((kind self.now).layout depth).columns };

    /// The samples of a group.
    fn positions(&self, depth: u8) -> usize
        ensures { result ≡ ((kind self.now).layout depth).positions };

    /// How many columns of the part there are to one of the plane.
    fn column_step(&self, depth: u8, plane: usize) -> usize
        ensures { result ≡ ((kind self.now).layout depth).column_step plane };

    /// How many rows of the part there are to one of the plane.
    fn row_step(&self, depth: u8, plane: usize) -> usize
        ensures { result ≡ ((kind self.now).layout depth).row_step plane };

    /// The plane of position `k`.
    fn position_plane(&self, depth: u8, k: usize) -> usize
        ensures { result ≡ ((kind self.now).layout depth).plane k };

    /// The row of position `k`, in its plane and inside the group.
    fn position_row(&self, depth: u8, k: usize) -> usize
        ensures { result ≡ ((kind self.now).layout depth).row k };

    /// The column of position `k`, in its plane and inside the group.
    fn position_column(&self, depth: u8, k: usize) -> usize
        ensures { result ≡ ((kind self.now).layout depth).column k };

    /// The laws of a kind, owed by each implementation.
    ghost lawful: { (x : Self) → LawfulKind (kind x) };
}
