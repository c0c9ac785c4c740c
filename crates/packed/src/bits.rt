//! Runs of bits in octets, the most significant bit first, read and made anew through a window of three octets.

ghost use Rattle.std.specs.Prelude.{◌≡◌, ℕ, ◌+◌, ◌-◌, ◌*◌, ◌/◌, ◌%◌, ◌^◌, ◌<◌, ◌≤◌, length, nat_le, slice_index, slice_set};
ghost use Rattle.packed.specs.BitRuns.{bit_at, run_at, bit_after, window_at, window_set, spliced as splice_of};

/// The bits of one sample: `depth` of them, from bit `first` on.
#[derive(Clone, Copy)]
pub(crate) struct BitRun {
    pub(crate) first: usize,
    pub(crate) depth: u8,
    ghost narrow: { depth ≤ 16 },
}

impl BitRun {
    /// Whether a value is not below 2^depth.
    pub(crate) fn overflows(&self, value: u16) -> bool
        ensures { result ≡ nat_le (2 ^ self.now.depth) value }
    {
        u32::from(value) >= 1 << self.depth
    }

    /// The number that the bits stand for.
    pub(crate) fn read(&self, octets: &[u8]) -> u16
        ensures { result ≡ run_at octets.now self.now.first self.now.depth }
    {
        let above = Window::of(octets, self.first / 8).number >> self.shift();
        (above % (1 << self.depth)) as u16
    }

    /// Makes the bits stand for a value, and changes no other bit.
    pub(crate) fn write(&self, octets: &mut [u8], value: u16)
        requires small { value < 2 ^ self.now.depth }
        requires room { self.now.first + self.now.depth ≤ 8 * length octets.old }
        ensures { (k : ℕ) → bit_at octets.new k ≡ bit_after octets.old self.now.first self.now.depth value k }
    {
        let i = self.first / 8;
        Window::of(octets, i).spliced(self, value).write(octets, i);
    }

    // How many bits stand behind the run in the window that begins with the octet of its first bit.
    fn shift(&self) -> u32
        ensures value { result ≡ 24 - self.now.first % 8 - self.now.depth }
        ensures room { result + self.now.depth ≤ 24 }
    {
        24 - (self.first % 8) as u32 - self.depth as u32
    }
}

/// Three octets as one number.
#[derive(Clone, Copy)]
struct Window {
    number: u32,
    ghost below: { number < 2 ^ 24 },
}

impl Window {
    // The window from an octet on, each octet past the end as 0.
    fn of(octets: &[u8], i: usize) -> Window
        requires { i < 2 ^ 63 }
        ensures is { result.number ≡ window_at octets.now i }
        ensures octets { (slice_index octets.now i < 256) × (slice_index octets.now (i + 1) < 256) × (slice_index octets.now (i + 2) < 256) }
    {
        let octet = |k: usize| octets.get(i + k).copied().unwrap_or(0);
        let number = u32::from_be_bytes([0, octet(0), octet(1), octet(2)]);
        Window { number }
    }

    // The window once the bits of a run in it stand for a value.
    fn spliced(self, run: &BitRun, value: u16) -> Window
        requires { value < 2 ^ run.now.depth }
        ensures { result.number ≡ splice_of self.number (24 - run.now.first % 8 - run.now.depth) run.now.depth value }
    {
        let shift = run.shift();
        let above = self.number >> (shift + run.depth as u32);
        let below = self.number % (1 << shift);
        Window {
            number: (((above << run.depth) + value as u32) << shift) + below,
        }
    }

    // Sets the octets from one on, and none past the end.
    fn write(self, octets: &mut [u8], i: usize)
        requires { i < 2 ^ 63 }
        ensures { octets.new ≡ window_set octets.old i self.number }
    {
        let [_, high, middle, low] = self.number.to_be_bytes();
        set_octet(octets, i, high);
        set_octet(octets, i + 1, middle);
        set_octet(octets, i + 2, low);
    }
}

// Sets the octet at an index, and none past the end. `get_mut` was tried: the proof did not close, as it knows no element of a slice that lent one.
fn set_octet(octets: &mut [u8], i: usize, value: u8)
    ensures { octets.new ≡ slice_set octets.old i value }
{
    if i < octets.len() {
        octets[i] = value;
    }
}
