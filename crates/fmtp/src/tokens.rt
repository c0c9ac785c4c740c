//! Values that a format line spells as one of a fixed list of texts.

ghost use Rattle.std.specs.Prelude.{◌≡◌, ℕ, List};
ghost use Rattle.fmtp.specs.Spellings.{spelled};

// Not one list of pairs: `text` would then be a search that could miss, where a `match` names every value.
pub trait Token: Copy {
    ghost spelling: { Self → List ℕ };

    ghost values: { List Self };

    // As the value stands in a line.
    fn text(&self) -> &'static str
        ensures { result.now ≡ spelling self.now };

    // Each value once.
    fn all() -> &'static [Self]
        ensures { result.now ≡ values };
}

// The value that a text spells.
pub fn recognised<T: Token + 'static>(text: &[u8]) -> Option<T>
    ensures { result ≡ spelled T.Token.spelling T.Token.values text.now }
{
    T::all()
        .iter()
        .find(|value| value.text().as_bytes() == text)
        .copied()
}
