//! The parameters that a format line can name, and the values that each may have.

ghost use Rattle.std.specs.Prelude.{◌≡◌};
ghost use Rattle.fmtp.specs.Parameters.{parameter_text, parameters, is_flag, accepts, max_udp_of, size_of, aspect_of, permitted};
ghost use Rattle.fmtp.specs.Borrowed.{text_of};
ghost use Rattle.fmtp.specs.Reading.{has_name};

use crate::entries::Entry;
use crate::numbers::{decimal, frame_rate, ratio};
use crate::tokens::{Token, recognised};
use records::{Colorimetry, Depth, Edition, PackingMode, Range, Ratio, Sampling, Transfer};

/// A name that has a meaning in a format line.
#[derive(Clone, Copy)]
pub enum Parameter {
    Sampling,
    Depth,
    Width,
    Height,
    FrameRate,
    Colorimetry,
    Packing,
    Edition,
    Interlace,
    Segmented,
    Transfer,
    Range,
    MaxUdp,
    PixelAspect,
}

impl Token for Parameter {
    ghost spelling = { parameter_text };

    ghost values = { parameters };

    fn text(&self) -> &'static str {
        match self {
            Parameter::Sampling => "sampling",
            Parameter::Depth => "depth",
            Parameter::Width => "width",
            Parameter::Height => "height",
            Parameter::FrameRate => "exactframerate",
            Parameter::Colorimetry => "colorimetry",
            Parameter::Packing => "PM",
            Parameter::Edition => "SSN",
            Parameter::Interlace => "interlace",
            Parameter::Segmented => "segmented",
            Parameter::Transfer => "TCS",
            Parameter::Range => "RANGE",
            Parameter::MaxUdp => "MAXUDP",
            Parameter::PixelAspect => "PAR",
        }
    }

    fn all() -> &'static [Parameter] {
        &[
            Parameter::Sampling,
            Parameter::Depth,
            Parameter::Width,
            Parameter::Height,
            Parameter::FrameRate,
            Parameter::Colorimetry,
            Parameter::Packing,
            Parameter::Edition,
            Parameter::Interlace,
            Parameter::Segmented,
            Parameter::Transfer,
            Parameter::Range,
            Parameter::MaxUdp,
            Parameter::PixelAspect,
        ]
    }
}

impl Parameter {
    // A flag stands alone in a line, and every other parameter has a value.
    fn is_flag(self) -> bool
        ensures { result ≡ is_flag self }
    {
        matches!(self, Parameter::Interlace | Parameter::Segmented)
    }

    // Whether a text is a value of this parameter.
    fn accepts(self, value: &[u8]) -> bool
        ensures { result ≡ accepts self value.now }
    {
        match self {
            Parameter::Sampling => recognised::<Sampling>(value).is_some(),
            Parameter::Depth => recognised::<Depth>(value).is_some(),
            Parameter::Width | Parameter::Height => size(value).is_some(),
            Parameter::FrameRate => frame_rate(value).is_some(),
            Parameter::Colorimetry => recognised::<Colorimetry>(value).is_some(),
            Parameter::Packing => recognised::<PackingMode>(value).is_some(),
            Parameter::Edition => recognised::<Edition>(value).is_some(),
            Parameter::Interlace | Parameter::Segmented => false,
            Parameter::Transfer => recognised::<Transfer>(value).is_some(),
            Parameter::Range => recognised::<Range>(value).is_some(),
            Parameter::MaxUdp => max_udp(value).is_some(),
            Parameter::PixelAspect => pixel_aspect(value).is_some(),
        }
    }
}

impl Entry<'_> {
    /// Whether the entry has the parameter's name.
    pub fn is_of(&self, parameter: Parameter) -> bool
        ensures { result ≡ has_name (parameter_text parameter) (text_of self.now) }
    {
        self.name() == parameter.text().as_bytes()
    }
}

/// Whether an entry's name is unknown, or its value is one of those that the name may have.
pub fn is_permitted(entry: &Entry) -> bool
    ensures { result ≡ permitted (text_of entry.now) }
{
    let Some(parameter) = recognised::<Parameter>(entry.name()) else {
        return true;
    };
    match entry.value() {
        None => parameter.is_flag(),
        Some(value) => parameter.accepts(value),
    }
}

/// Columns or rows of a picture.
pub fn size(value: &[u8]) -> Option<u32>
    ensures { result ≡ size_of value.now }
{
    decimal(value, 32767)
}

/// Octets of the largest datagram; only the standard size is served.
pub fn max_udp(value: &[u8]) -> Option<u32>
    ensures { result ≡ max_udp_of value.now }
{
    (value == b"1460".as_slice()).then_some(1460)
}

/// Width and height of a pixel.
pub fn pixel_aspect(value: &[u8]) -> Option<Ratio>
    ensures { result ≡ aspect_of value.now }
{
    ratio(value, b':', 32767)
}
