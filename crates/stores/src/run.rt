//! Runs of samples in one row: whether their values fit, and samples out of words.

ghost use Rattle.std.specs.Prelude.{◌≡◌, ℕ, ◌-◌, ◌^◌, ◌<◌, ◌≤◌, ltb, length, bit_and, slice_index};
ghost use Rattle.theory.specs.Octets.{all_below};

/// The largest value of a depth.
pub(crate) fn largest(depth: u8) -> u16
    requires { depth ≤ 16 }
    ensures { result ≡ 2 ^ depth - 1 }
{
    ((1u32 << depth) - 1) as u16
}

/// Whether all values are below 2^depth.
pub(crate) fn all_fit(values: &[u16], depth: u8) -> bool
    requires { depth ≤ 16 }
    ensures { result ≡ all_below (length values.now) (λ i. ltb (slice_index values.now i) (2 ^ depth)) }
{
    let most = largest(depth);
    // fold, since it vectorises: all leaves early, and takes seven times as long over a row of 600
    values
        .iter()
        .fold(true, |fit, value| fit & (*value <= most))
}

/// Makes each sample its word under a mask.
pub(crate) fn copy_masked(words: &[u16], mask: u16, samples: &mut [u16])
    requires { length words.now ≡ length samples.old }
    ensures { (k : ℕ) → k < length samples.old → slice_index samples.new k ≡ bit_and (slice_index words.now k) mask }
{
    // by index in words: after a loop over samples.iter_mut().zip(words) a proof knows no element of samples
    for (i, sample) in samples.iter_mut().enumerate() {
        *sample = words[i] & mask;
    }
}
