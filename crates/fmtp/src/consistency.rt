//! Parameters that contradict each other.

ghost use Rattle.std.specs.Prelude.{◌≡◌};
ghost use Rattle.fmtp.specs.Consistency.{at_odds, new_in_2022};

use records::{Colorimetry, Edition, Range, Record, Transfer};

// Whether two parameters contradict each other.
pub fn is_at_odds(record: &Record) -> bool
    ensures { result ≡ at_odds «record».now }
{
    let protected = record.range == Some(Range::FullProtect);
    let wide = record.colorimetry == Colorimetry::Bt2100;
    let of_2022 = record.edition == Edition::Of2022;
    record.segmented && !record.interlace || protected && wide || of_2022 != is_new_in_2022(record)
}

// Whether a value came with the edition of 2022.
fn is_new_in_2022(record: &Record) -> bool
    ensures { result ≡ new_in_2022 «record».now }
{
    record.colorimetry == Colorimetry::Alpha || record.transfer == Some(Transfer::St2115LogS3)
}
