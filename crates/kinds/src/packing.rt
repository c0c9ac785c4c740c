//! The samples of a group in its octets: `depth` bits each, the most significant first, without gaps.

ghost use Rattle.std.specs.Prelude.{◌≡◌, ℕ, ◌+◌, ◌-◌, ◌*◌, ◌/◌, ◌%◌, ◌^◌, ◌<◌, ◌≤◌, true, length, map, ◌==◌, ◌&&◌, IfSome, None};
ghost use Rattle.std.specs.Int.Digits.{AllBelowBase, number_from_digits};
ghost use Rattle.theory.specs.Octets.{digit, digits};
ghost use Rattle.theory.specs.Groups.{octets_of_samples};
ghost use Rattle.kinds.specs.Packing.{ReadsBack, all_under, packed, packed_into, packs, packs_into, unpacked, unpacked_all, unpacks_all};

use crate::kind::GroupKind;

/// A digit of the number that a list of them writes, the most significant first.
trait Digit: Copy {
    ghost value: { Self → ℕ };

    fn value(self) -> u64
        ensures { result ≡ value self };
}

impl Digit for u8 {
    ghost value = { λ x. x };

    fn value(self) -> u64 {
        u64::from(self)
    }
}

impl Digit for u16 {
    ghost value = { λ x. x };

    fn value(self) -> u64 {
        u64::from(self)
    }
}

/// The number that a few digits of `width` bits write.
#[inline]
fn number<T: Digit>(digits: &[T], width: usize) -> u64
    requires bits { width ≤ 16 }
    requires few { width * length digits.now ≤ 64 }
    requires small { AllBelowBase (2 ^ width) (map T.value digits.now) }
    ensures { result ≡ number_from_digits (2 ^ width) (map T.value digits.now) }
{
    // A `for`: as a `fold` it compiled to a loop of its own inside the one of `unpack`.
    let mut n = 0;
    for digit in digits {
        n = n << width | digit.value();
    }
    n
}

/// Of digits of `width` bits, the `count` bits from bit `start` on. Inlined, so that octets, and samples of a depth that is known, are found
/// by shifts and not by division.
#[inline(always)]
fn bits<T: Digit>(digits: &[T], width: usize, start: usize, count: usize) -> u64
    requires width { (0 < width) × (width ≤ 16) }
    requires count { count ≤ 16 }
    requires few { length digits.now ≤ 48 }
    requires inside { start + count ≤ length digits.now * width }
    requires small { AllBelowBase (2 ^ width) (map T.value digits.now) }
    ensures { result ≡ (number_from_digits (2 ^ width) (map T.value digits.now) / 2 ^ (length digits.now * width - (start + count))) % 2 ^ count }
{
    let end = start + count;
    let last = end.div_ceil(width);
    let window = number(&digits[start / width..last], width);
    window >> (last * width - end) & ((1 << count) - 1)
}

/// Whether each sample is below the limit.
fn all_under(samples: &[u16], limit: u32) -> bool
    ensures { result ≡ all_under limit samples.now }
{
    samples.iter().all(|sample| u32::from(*sample) < limit)
}

/// How the samples of a group stand in its octets.
#[derive(Clone, Copy)]
struct Packing {
    depth: usize,
    positions: usize,
    octets: usize,
    ghost depth_range: { (8 ≤ depth) × (depth ≤ 16) },
    ghost few: { positions ≤ 24 },
    ghost bits: { octets * 8 ≡ positions * depth },
}

impl Packing {
    /// None if the kind does not have the depth.
    fn new<K: GroupKind>(kind: &K, depth: u8) -> Option<Self>
        ensures none { result ≡ None → ((K.GroupKind.kind kind.now).layout depth).octets ≡ 0 }
        ensures some { IfSome result (λ p. (0 < p.octets) × (p.depth ≡ depth) × (p.positions ≡ ((K.GroupKind.kind kind.now).layout depth).positions) × (p.octets ≡ ((K.GroupKind.kind kind.now).layout depth).octets)) }
    {
        let octets = kind.octets(depth);
        if octets == 0 {
            return None;
        }
        Some(Packing {
            depth: usize::from(depth),
            positions: kind.positions(depth),
            octets,
        })
    }

    /// Whether these samples are as many as a group has, each of `depth` bits.
    fn takes(self, samples: &[u16]) -> bool
        ensures { result ≡ (length samples.now == self.positions && all_under (2 ^ self.depth) samples.now) }
    {
        samples.len() == self.positions && all_under(samples, 1 << self.depth)
    }

    /// The sample at position `k` of a group.
    fn sample(self, group: &[u8], k: usize) -> u16
        requires whole { length group.now ≡ self.octets }
        requires inside { k < self.positions }
        ensures { result ≡ digit self.depth self.positions (number_from_digits 256 group.now) k }
    {
        bits(group, 8, k * self.depth, self.depth) as u16
    }

    /// The octet at `i` of the group of these samples.
    fn octet(self, samples: &[u16], i: usize) -> u8
        requires complete { length samples.now ≡ self.positions }
        requires small { AllBelowBase (2 ^ self.depth) samples.now }
        requires inside { i < self.octets }
        ensures { result ≡ digit 8 self.octets (number_from_digits (2 ^ self.depth) samples.now) i }
    {
        bits(samples, self.depth, i * 8, 8) as u8
    }

    /// Reads every sample of a group.
    fn read(self, group: &[u8], samples: &mut [u16])
        requires whole { length group.now ≡ self.octets }
        requires complete { length samples.old ≡ self.positions }
        ensures { samples.new ≡ digits self.depth self.positions (number_from_digits 256 group.now) }
    {
        for (k, sample) in samples.iter_mut().enumerate() {
            *sample = self.sample(group, k);
        }
    }

    /// Writes a group from its samples.
    fn write(self, samples: &[u16], group: &mut [u8])
        requires whole { length group.old ≡ self.octets }
        requires complete { length samples.now ≡ self.positions }
        requires small { AllBelowBase (2 ^ self.depth) samples.now }
        ensures { group.new ≡ digits 8 self.octets (number_from_digits (2 ^ self.depth) samples.now) }
    {
        for (i, octet) in group.iter_mut().enumerate() {
            *octet = self.octet(samples, i);
        }
    }
}

/// The sample at position `k` of a group; 0 if the depth, the number of octets or the position is not the kind's.
// 0, and false below, in the place of an `Option`: a kind's questions and the calls on its groups answer so, by the project's rule.
pub fn unpack<K: GroupKind>(kind: &K, depth: u8, group: &[u8], k: usize) -> u16
    ensures { result ≡ unpacked ((K.GroupKind.kind kind.now).layout depth) depth group.now k }
{
    match Packing::new(kind, depth) {
        Some(packing) if group.len() == packing.octets && k < packing.positions => packing.sample(
            group, k,
        ),
        _ => 0,
    }
}

/// Reads every sample of a group; false, and nothing written, if the depth, the octets or the number of samples is not the kind's.
pub fn unpack_all<K: GroupKind>(kind: &K, depth: u8, group: &[u8], samples: &mut [u16]) -> bool
    ensures answer { result ≡ unpacks_all ((K.GroupKind.kind kind.now).layout depth) group.now samples.old }
    ensures memory { samples.new ≡ unpacked_all ((K.GroupKind.kind kind.now).layout depth) depth group.now samples.old }
    ensures back { result ≡ true → octets_of_samples ((K.GroupKind.kind kind.now).layout depth) depth samples.new ≡ group.now }
{
    match Packing::new(kind, depth) {
        Some(packing) if group.len() == packing.octets && samples.len() == packing.positions => {
            packing.read(group, samples);
            true
        }
        _ => false,
    }
}

/// Writes the samples of a group as its octets; false, and nothing written, if the depth, the octets or the samples are not the kind's.
pub fn pack<K: GroupKind>(kind: &K, depth: u8, samples: &[u16], group: &mut [u8]) -> bool
    ensures answer { result ≡ packs ((K.GroupKind.kind kind.now).layout depth) depth samples.now group.old }
    ensures memory { group.new ≡ packed ((K.GroupKind.kind kind.now).layout depth) depth samples.now group.old }
    ensures back { result ≡ true → ReadsBack ((K.GroupKind.kind kind.now).layout depth) depth samples.now group.new }
{
    match Packing::new(kind, depth) {
        Some(packing) if group.len() == packing.octets && packing.takes(samples) => {
            packing.write(samples, group);
            true
        }
        _ => false,
    }
}

/// Writes the samples of a group as the octets of `buffer` from `start` on; false, and nothing written, if they do not fit there.
pub fn pack_into<K: GroupKind>(
    kind: &K,
    depth: u8,
    samples: &[u16],
    buffer: &mut [u8],
    start: usize,
) -> bool
    ensures answer { result ≡ packs_into ((K.GroupKind.kind kind.now).layout depth) depth samples.now buffer.old start }
    ensures memory { buffer.new ≡ packed_into ((K.GroupKind.kind kind.now).layout depth) depth samples.now buffer.old start }
{
    match start.checked_add(kind.octets(depth)) {
        Some(end) if end <= buffer.len() => pack(kind, depth, samples, &mut buffer[start..end]),
        _ => false,
    }
}
