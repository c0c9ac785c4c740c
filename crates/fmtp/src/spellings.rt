//! How a format line spells the values that come from a list.

ghost use Rattle.std.specs.Prelude.{◌≡◌};
ghost use Rattle.fmtp.specs.Values.{
  sampling_text,
  samplings,
  depth_text,
  depths,
  colorimetry_text,
  colorimetries,
  packing_text,
  packings,
  edition_text,
  editions,
  range_text,
  ranges,
  transfer_text,
  transfers,
};

use crate::tokens::Token;
use records::{Colorimetry, Depth, Edition, PackingMode, Range, Sampling, Transfer};

impl Token for Sampling {
    ghost spelling = { sampling_text };

    ghost values = { samplings };

    fn text(&self) -> &'static str {
        match self {
            Sampling::YCbCr444 => "YCbCr-4:4:4",
            Sampling::YCbCr422 => "YCbCr-4:2:2",
            Sampling::YCbCr420 => "YCbCr-4:2:0",
            Sampling::ClYCbCr444 => "CLYCbCr-4:4:4",
            Sampling::ClYCbCr422 => "CLYCbCr-4:2:2",
            Sampling::ClYCbCr420 => "CLYCbCr-4:2:0",
            Sampling::ICtCp444 => "ICtCp-4:4:4",
            Sampling::ICtCp422 => "ICtCp-4:2:2",
            Sampling::ICtCp420 => "ICtCp-4:2:0",
            Sampling::Rgb => "RGB",
            Sampling::Xyz => "XYZ",
            Sampling::Key => "KEY",
        }
    }

    fn all() -> &'static [Sampling] {
        &[
            Sampling::YCbCr444,
            Sampling::YCbCr422,
            Sampling::YCbCr420,
            Sampling::ClYCbCr444,
            Sampling::ClYCbCr422,
            Sampling::ClYCbCr420,
            Sampling::ICtCp444,
            Sampling::ICtCp422,
            Sampling::ICtCp420,
            Sampling::Rgb,
            Sampling::Xyz,
            Sampling::Key,
        ]
    }
}

impl Token for Depth {
    ghost spelling = { depth_text };

    ghost values = { depths };

    fn text(&self) -> &'static str {
        match self {
            Depth::Bits8 => "8",
            Depth::Bits10 => "10",
            Depth::Bits12 => "12",
            Depth::Bits16 => "16",
            Depth::Float16 => "16f",
        }
    }

    fn all() -> &'static [Depth] {
        &[
            Depth::Bits8,
            Depth::Bits10,
            Depth::Bits12,
            Depth::Bits16,
            Depth::Float16,
        ]
    }
}

impl Token for Colorimetry {
    ghost spelling = { colorimetry_text };

    ghost values = { colorimetries };

    fn text(&self) -> &'static str {
        match self {
            Colorimetry::Bt601 => "BT601",
            Colorimetry::Bt709 => "BT709",
            Colorimetry::Bt2020 => "BT2020",
            Colorimetry::Bt2100 => "BT2100",
            Colorimetry::St2065Part1 => "ST2065-1",
            Colorimetry::St2065Part3 => "ST2065-3",
            Colorimetry::Unspecified => "UNSPECIFIED",
            Colorimetry::Xyz => "XYZ",
            Colorimetry::Alpha => "ALPHA",
        }
    }

    fn all() -> &'static [Colorimetry] {
        &[
            Colorimetry::Bt601,
            Colorimetry::Bt709,
            Colorimetry::Bt2020,
            Colorimetry::Bt2100,
            Colorimetry::St2065Part1,
            Colorimetry::St2065Part3,
            Colorimetry::Unspecified,
            Colorimetry::Xyz,
            Colorimetry::Alpha,
        ]
    }
}

impl Token for PackingMode {
    ghost spelling = { packing_text };

    ghost values = { packings };

    fn text(&self) -> &'static str {
        match self {
            PackingMode::General => "2110GPM",
            PackingMode::Block => "2110BPM",
        }
    }

    fn all() -> &'static [PackingMode] {
        &[PackingMode::General, PackingMode::Block]
    }
}

impl Token for Edition {
    ghost spelling = { edition_text };

    ghost values = { editions };

    fn text(&self) -> &'static str {
        match self {
            Edition::Of2017 => "ST2110-20:2017",
            Edition::Of2022 => "ST2110-20:2022",
        }
    }

    fn all() -> &'static [Edition] {
        &[Edition::Of2017, Edition::Of2022]
    }
}

impl Token for Range {
    ghost spelling = { range_text };

    ghost values = { ranges };

    fn text(&self) -> &'static str {
        match self {
            Range::Narrow => "NARROW",
            Range::Full => "FULL",
            Range::FullProtect => "FULLPROTECT",
        }
    }

    fn all() -> &'static [Range] {
        &[Range::Narrow, Range::Full, Range::FullProtect]
    }
}

impl Token for Transfer {
    ghost spelling = { transfer_text };

    ghost values = { transfers };

    fn text(&self) -> &'static str {
        match self {
            Transfer::Sdr => "SDR",
            Transfer::Pq => "PQ",
            Transfer::Hlg => "HLG",
            Transfer::Linear => "LINEAR",
            Transfer::Bt2100LinearPq => "BT2100LINPQ",
            Transfer::Bt2100LinearHlg => "BT2100LINHLG",
            Transfer::St2065Part1 => "ST2065-1",
            Transfer::St428Part1 => "ST428-1",
            Transfer::Density => "DENSITY",
            Transfer::St2115LogS3 => "ST2115LOGS3",
            Transfer::Unspecified => "UNSPECIFIED",
        }
    }

    fn all() -> &'static [Transfer] {
        &[
            Transfer::Sdr,
            Transfer::Pq,
            Transfer::Hlg,
            Transfer::Linear,
            Transfer::Bt2100LinearPq,
            Transfer::Bt2100LinearHlg,
            Transfer::St2065Part1,
            Transfer::St428Part1,
            Transfer::Density,
            Transfer::St2115LogS3,
            Transfer::Unspecified,
        ]
    }
}
