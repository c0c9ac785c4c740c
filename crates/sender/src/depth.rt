//! The depth of samples, as the compiler sees it: fixed when a text is compiled, or told when it runs.

ghost use Rattle.std.specs.Prelude.{◌≡◌, ℕ};

/// A depth.
pub(crate) trait Depth {
    /// The bits of a sample.
    ghost depth: { Self → ℕ };

    /// The bits of a sample.
    fn bits(&self) -> u8
        ensures { result ≡ depth self.now };
}

/// A depth that is fixed when the text is compiled.
#[derive(Clone, Copy)]
pub(crate) struct Fixed<const DEPTH: u8>;

impl<const DEPTH: u8> Depth for Fixed<DEPTH> {
    ghost depth = { λ _. DEPTH };

    fn bits(&self) -> u8 {
        DEPTH
    }
}

impl Depth for u8 {
    ghost depth = { λ n. n };

    fn bits(&self) -> u8 {
        *self
    }
}
