//! The format that a record announces, for the kind of its sampling.

ghost use Rattle.std.specs.Prelude.{◌≡◌, ◌<◌, Bool, ◌==◌, MatchResult};
ghost use Rattle.records.specs.declared.Sampling.{Sampling as SamplingT};
ghost use Rattle.formats.specs.Announced.{table_row, announced, outcome};

use crate::format::Format;
use crate::mode::Mode;
use crate::scan::Scan;
use kinds::{GroupKind, Key, Rgb, Xyz, Ycc420, Ycc422, Ycc444};
use records::{Record, Sampling};
use refusals::Refusal;

/// A kind that serves some of the samplings that a format line can name.
pub trait SampledKind: GroupKind {
    ghost served: { SamplingT → Bool };

    /// Whether groups of this kind carry the sampling.
    fn serves(&self, sampling: Sampling) -> bool
        ensures { result ≡ served sampling };
}

impl SampledKind for Ycc444 {
    ghost served = { λ s. (table_row s == 0) };

    fn serves(&self, sampling: Sampling) -> bool {
        matches!(
            sampling,
            Sampling::YCbCr444 | Sampling::ClYCbCr444 | Sampling::ICtCp444
        )
    }
}

impl SampledKind for Rgb {
    ghost served = { λ s. (table_row s == 1) };

    fn serves(&self, sampling: Sampling) -> bool {
        matches!(sampling, Sampling::Rgb)
    }
}

impl SampledKind for Xyz {
    ghost served = { λ s. (table_row s == 2) };

    fn serves(&self, sampling: Sampling) -> bool {
        matches!(sampling, Sampling::Xyz)
    }
}

impl SampledKind for Ycc422 {
    ghost served = { λ s. (table_row s == 3) };

    fn serves(&self, sampling: Sampling) -> bool {
        matches!(
            sampling,
            Sampling::YCbCr422 | Sampling::ClYCbCr422 | Sampling::ICtCp422
        )
    }
}

impl SampledKind for Ycc420 {
    ghost served = { λ s. (table_row s == 4) };

    fn serves(&self, sampling: Sampling) -> bool {
        matches!(
            sampling,
            Sampling::YCbCr420 | Sampling::ClYCbCr420 | Sampling::ICtCp420
        )
    }
}

impl SampledKind for Key {
    ghost served = { λ s. (table_row s == 5) };

    fn serves(&self, sampling: Sampling) -> bool {
        matches!(sampling, Sampling::Key)
    }
}

impl<K: SampledKind + Copy> Format<K> {
    /// The format that a record announces, with a payload type and an SSRC: refusal 4 for another kind's sampling, and outside the limits.
    pub fn announced(
        kind: K,
        record: &Record,
        payload_type: u8,
        ssrc: u32,
    ) -> Result<Format<K>, Refusal>
        ensures { outcome K.GroupKind.kind result ≡ announced K.SampledKind.served (K.GroupKind.kind kind) «record».now payload_type ssrc }
    {
        let format = Format {
            kind,
            depth: u8::from(record.depth),
            width: side(record.width)?,
            height: side(record.height)?,
            scan: u8::from(Scan::from(record)),
            mode: u8::from(Mode::from(record.packing)),
            payload_type,
            ssrc,
        };
        if kind.serves(record.sampling) && format.is_lawful() {
            Ok(format)
        } else {
            Err(Refusal::FormatOutsideLimits)
        }
    }
}

// Columns or rows, in the 16 bits of a format.
fn side(size: u32) -> Result<u16, Refusal>
    ensures { MatchResult result (λ side. side ≡ size) (λ e. (e ≡ Refusal.FormatOutsideLimits) × (65535 < size)) }
{
    u16::try_from(size).map_err(|_| Refusal::FormatOutsideLimits)
}
