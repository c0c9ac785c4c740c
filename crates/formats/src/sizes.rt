//! Division rounded up, and products that fit.

ghost use Rattle.std.specs.Prelude.{◌≡◌, ◌*◌, ◌≤◌};
ghost use Rattle.theory.specs.Octets.{ceil_div};

/// `a` divided by `b`, rounded up; 0 where `b` is 0.
pub(crate) fn divided_up(a: usize, b: usize) -> usize
    ensures value { result ≡ ceil_div a b }
    ensures bound { result ≤ a }
{
    if b == 0 { 0 } else { a.div_ceil(b) }
}

/// So many times a size below 2^16, of what there is less than 2^32 of.
pub(crate) fn times(count: usize, size: usize) -> usize
    requires many { count ≤ 65535 * 65535 }
    requires small { size ≤ 65535 }
    ensures value { result ≡ count * size }
    ensures bound { result ≤ count * 65535 }
{
    count * size
}
