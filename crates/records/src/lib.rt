//! What a format line announces: a record with a named value for each parameter.
//! An absent parameter stays absent; the `_or_default` questions tell what then holds.
#![tactic(auto)]

ghost use Rattle.std.specs.Prelude.{◌≡◌};
ghost use Rattle.records.specs.Defaults.{transfer_told, range_told, max_udp_told, pixel_aspect_told};
ghost use Rattle.records.specs.Depths.{depth_bits};

/// The color components of a pixel, and how their planes are sampled.
#[derive(Clone, Copy, Debug, PartialEq, Eq)]
pub enum Sampling {
    YCbCr444,
    YCbCr422,
    YCbCr420,
    ClYCbCr444,
    ClYCbCr422,
    ClYCbCr420,
    ICtCp444,
    ICtCp422,
    ICtCp420,
    Rgb,
    Xyz,
    Key,
}

/// Bits of a sample: integers, or floating point of 16 bits.
#[derive(Clone, Copy, Debug, PartialEq, Eq)]
pub enum Depth {
    Bits8,
    Bits10,
    Bits12,
    Bits16,
    Float16,
}

/// The bits of a sample. Floating point of 16 bits is carried as any 16 bits.
impl From<Depth> for u8 {
    ghost from_gives = { λ depth bits. bits ≡ depth_bits depth };

    fn from(depth: Depth) -> u8 {
        match depth {
            Depth::Bits8 => 8,
            Depth::Bits10 => 10,
            Depth::Bits12 => 12,
            Depth::Bits16 | Depth::Float16 => 16,
        }
    }
}

/// The system of colors that the samples are measured in.
#[derive(Clone, Copy, Debug, PartialEq, Eq)]
pub enum Colorimetry {
    Bt601,
    Bt709,
    Bt2020,
    Bt2100,
    St2065Part1,
    St2065Part3,
    Unspecified,
    Xyz,
    Alpha,
}

/// How packets are filled: as they come, or in blocks of 180 octets.
#[derive(Clone, Copy, Debug, PartialEq, Eq)]
pub enum PackingMode {
    General,
    Block,
}

/// The edition of ST 2110-20 that the sender follows.
#[derive(Clone, Copy, Debug, PartialEq, Eq)]
pub enum Edition {
    Of2017,
    Of2022,
}

/// The part of the numbers that sample values use.
#[derive(Clone, Copy, Debug, PartialEq, Eq)]
pub enum Range {
    Narrow,
    Full,
    FullProtect,
}

/// The transfer characteristic: how sample values stand for light.
#[derive(Clone, Copy, Debug, PartialEq, Eq)]
pub enum Transfer {
    Sdr,
    Pq,
    Hlg,
    Linear,
    Bt2100LinearPq,
    Bt2100LinearHlg,
    St2065Part1,
    St428Part1,
    Density,
    St2115LogS3,
    Unspecified,
}

/// Two numbers without a common divisor: a frame rate, or the width and the height of a pixel.
#[derive(Clone, Copy, Debug, PartialEq, Eq)]
pub struct Ratio {
    pub numerator: u32,
    pub denominator: u32,
}

/// The parameters of a format line. What the line leaves out is `None`; the `_or_default` questions tell what then holds.
#[derive(Clone, Copy, Debug, PartialEq, Eq)]
pub struct Record {
    pub sampling: Sampling,
    pub depth: Depth,
    pub width: u32,
    pub height: u32,
    pub frame_rate: Ratio,
    pub colorimetry: Colorimetry,
    pub packing: PackingMode,
    pub edition: Edition,
    // Two flags, as a line has them; of the four pairs one contradicts itself, and is refused with 25.
    pub interlace: bool,
    pub segmented: bool,
    pub transfer: Option<Transfer>,
    pub range: Option<Range>,
    pub max_udp: Option<u32>,
    pub pixel_aspect: Option<Ratio>,
}

impl Record {
    pub fn transfer_or_default(&self) -> Transfer
        ensures { result ≡ transfer_told self.now }
    {
        self.transfer.unwrap_or(Transfer::Sdr)
    }

    pub fn range_or_default(&self) -> Range
        ensures { result ≡ range_told self.now }
    {
        self.range.unwrap_or(Range::Narrow)
    }

    /// The largest UDP datagram, in octets with its header.
    pub fn max_udp_or_default(&self) -> u32
        ensures { result ≡ max_udp_told self.now }
    {
        self.max_udp.unwrap_or(1460)
    }

    /// The width of a pixel to its height.
    pub fn pixel_aspect_or_default(&self) -> Ratio
        ensures { result ≡ pixel_aspect_told self.now }
    {
        self.pixel_aspect.unwrap_or(Ratio {
            numerator: 1,
            denominator: 1,
        })
    }
}
