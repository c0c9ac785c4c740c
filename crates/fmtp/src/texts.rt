//! Octet texts: splitting them at an octet, and passing over blanks.

ghost use Rattle.std.specs.Prelude.{◌≡◌, ◌==◌, position};
ghost use Rattle.std.specs.Option.{option_map};
ghost use Rattle.fmtp.specs.Lines.{before, behind, blank, trimmed};

/// The octets in front of the first `separator` and, where it stands in the text, those behind it.
pub fn split_at_first(text: &[u8], separator: u8) -> (&[u8], Option<&[u8]>)
    ensures front { result.0.now ≡ before separator text.now }
    ensures rest { option_map (λ x. x.now) result.1 ≡ behind separator text.now }
{
    match place_of(text, separator) {
        Some(i) => (&text[..i], Some(&text[i + 1..])),
        None => (text, None),
    }
}

fn place_of(text: &[u8], octet: u8) -> Option<usize>
    ensures { result ≡ position (λ x. x == octet) text.now }
{
    text.iter().position(|&x| x == octet)
}

fn is_blank(octet: u8) -> bool
    ensures { result ≡ blank octet }
{
    matches!(octet, b' ' | b'\t')
}

/// The text from its first octet on that is no blank.
pub fn without_blanks(text: &[u8]) -> &[u8]
    ensures { result.now ≡ trimmed text.now }
{
    let blanks = text.iter().take_while(|octet| is_blank(**octet)).count();
    &text[blanks..]
}
