//! The arrival map: a bit for each group, set where the group has arrived.
//! Functions of the octets, not methods: counting lends them shared and taking lends them mutable, so a struct would be needed twice.

ghost use Rattle.std.specs.Prelude.{◌≡◌, ℕ, ◌*◌, ◌/◌, ◌%◌, ◌^◌, ◌<◌, ◌≤◌, not, ◌++◌, length, drop, slice_set, replicate, ◌==◌, nat_eq};
ghost use Rattle.theory.specs.Octets.{bit, marked, count_below};

/// Whether bit `n` is set.
pub(crate) fn is_set(map: &[u8], n: usize) -> bool
    requires { n < 8 * length map.now }
    ensures { result ≡ bit map.now n }
{
    map[n / 8] >> (n % 8) & 1 == 1
}

/// Sets bit `n`.
pub(crate) fn set(map: &mut [u8], n: usize)
    requires { n < 8 * length map.old }
    ensures { map.new ≡ marked map.old (λ k. nat_eq k n) }
{
    map[n / 8] |= 1 << (n % 8);
}

/// Clears all bits of the first octets.
pub(crate) fn reset(map: &mut [u8], octets: usize)
    requires { octets ≤ length map.old }
    ensures { map.new ≡ replicate octets 0 ++ drop octets map.old }
{
    map[..octets].fill(0);
}

// How many of an octet's low bits are clear: all bits above them are set first.
fn clear_low_bits(octet: u8, bits: usize) -> usize
    requires { bits ≤ 8 }
    ensures { result ≡ count_below bits (λ j. not ((octet / 2 ^ j) % 2 == 1)) }
{
    (u16::from(octet) | u16::MAX << bits).count_zeros() as usize
}

/// How many of the first bits are clear. It goes by octets.
pub(crate) fn clear_bits(map: &[u8], bits: usize) -> usize
    requires { bits ≤ 8 * length map.now }
    ensures { result ≡ count_below bits (λ k. not (bit map.now k)) }
{
    let whole = bits / 8;
    let clear: usize = map[..whole]
        .iter()
        .map(|octet| octet.count_zeros() as usize)
        .sum();
    match map.get(whole) {
        Some(octet) => clear + clear_low_bits(*octet, bits % 8),
        None => clear,
    }
}
