//! Numbers: out of bytes, as 64 bits can hold them, an LCN plus a signed delta, an LCN's byte position.
#![tactic(auto)]

ghost use Rattle.std.specs.Prelude.{true, Some, None, ◌≡◌, ◌+◌, ◌*◌, ◌^◌, ◌≤◌, length, pos, ◌+ℤ◌, option_map};
ghost use Rattle.format.specs.Number.{little, unsigned, twos, within, within_ℤ, between};
ghost use Rattle.format.specs.Number.{power_of_two, power_between, cluster_sound};
ghost use Rattle.format.specs.Pick.{pick};
ghost use Rattle.types.specs.Shown.{eight_at_most};

use std::marker::Model;

/// A logical cluster number.
#[derive(Clone, Copy, Debug, PartialEq, Eq)]
pub struct Lcn(pub u64);

impl Lcn {
    /// The LCN plus a delta as a run list holds it, or none where that is below 0 or over 2^64 - 1.
    #[tactic(auto, unfolding(format::specs::Number::within, format::specs::Pick::pick))]
    pub fn plus(self, delta: i64) -> Option<Lcn>
        ensures { option_map (λ to. to.0) result ≡ within_ℤ (pos self.0 +ℤ delta) }
    {
        self.0.checked_add_signed(delta).map(Lcn)
    }

    /// The same for a delta of any size.
    pub fn moved(self, delta: i128) -> Option<Lcn>
        ensures { option_map (λ to. to.0) result ≡ within_ℤ (pos self.0 +ℤ delta) }
    {
        sum(self.0, delta).map(Lcn)
    }

    /// The byte position of the LCN's first byte, or none where it is over 2^64 - 1.
    pub fn position(self, cluster: u64) -> Option<u64>
        ensures { result ≡ within (self.0 * cluster) }
    {
        times(self.0, cluster)
    }
}

/// A number plus a signed one, or none where the sum is below 0 or over 2^64 - 1.
#[tactic(auto, unfolding(format::specs::Number::within, format::specs::Pick::pick))]
pub fn sum(base: u64, delta: i128) -> Option<u64>
    ensures { result ≡ within_ℤ (pos base +ℤ delta) }
{
    let sum = i128::from(base).checked_add(delta)?;
    u64::try_from(sum).ok()
}

/// A product, or none where it is over 2^64 - 1.
#[tactic(auto, unfolding(format::specs::Number::within, format::specs::Pick::pick))]
pub fn times(a: u64, b: u64) -> Option<u64>
    ensures { result ≡ within (a * b) }
{
    let (product, over) = a.overflowing_mul(b);
    (!over).then_some(product)
}

/// The little-endian number of the n bytes from a place on, eight at most; bytes past the end count as none.
#[tactic(auto, unfolding(format::specs::Number::unsigned, format::specs::Pick::pick))]
pub fn number_at(bytes: &[u8], from: usize, n: usize) -> u64
    ensures { result ≡ unsigned bytes.now from (eight_at_most n) }
{
    let rest = bytes.get(from..).unwrap_or(&[]);
    little(&rest[..n.min(8).min(rest.len())])
}

/// The little-endian number of at most eight bytes.
#[tactic(auto, unfolding(format::specs::Number::little))]
fn little(bytes: &[u8]) -> u64
    requires { length bytes.now ≤ 8 }
    ensures { result ≡ little bytes.now }
{
    let mut number = 0;
    for byte in bytes.iter().rev() {
        number = number * 256 + u64::from(*byte);
    }
    number
}

/// Sign extension of a number of n bytes: less 256 to the n where its top bit is set. A number that n bytes can't hold
/// also gets 256 to the n taken off.
#[tactic(auto, using(crate::proofs::Signs::shifted, crate::proofs::Signs::whole_fits, crate::proofs::Signs::plain), unfolding(format::specs::Number::twos, format::specs::Pick::pick))]
pub fn extended(value: u64, n: usize) -> i128
    ensures { result ≡ twos n value }
{
    if n > 8 {
        return i128::from(value);
    }
    // n is at most 8 here, and the power at most 2^64: `as` loses nothing, and needs no answer for what can't be
    let whole = 1_u128 << (8 * n);
    if u128::from(value) * 2 < whole {
        i128::from(value)
    } else {
        i128::from(value) - whole as i128
    }
}

// It goes through the powers, as the definition does: std's `is_power_of_two` counts bits.
/// Whether n is a power of two.
#[tactic(auto, using(crate::proofs::Powers::power_here, crate::proofs::Powers::power_later, crate::proofs::Powers::power_nowhere), unfolding(format::specs::Number::power_of_two))]
pub fn power_of_two(n: u64) -> bool
    ensures { result ≡ power_of_two n }
{
    for k in 0..u64::BITS {
        if n == 1 << k {
            return true;
        }
    }
    false
}

/// Whether n is a power of two from lo to hi.
#[tactic(auto, unfolding(format::specs::Number::power_between, format::specs::Pick::pick))]
pub fn power_between(lo: u64, hi: u64, n: u64) -> bool
    ensures { result ≡ power_between lo hi n }
{
    in_range(lo, hi, n) && power_of_two(n)
}

/// Whether n is from lo to hi, both included.
#[tactic(auto, unfolding(format::specs::Number::between, format::specs::Pick::pick))]
pub fn in_range(lo: u64, hi: u64, n: u64) -> bool
    ensures { result ≡ between lo hi n }
{
    (lo..=hi).contains(&n)
}

/// Whether n is a sound cluster size: a power of two from 512 to 2,097,152 bytes.
#[tactic(auto, using(crate::proofs::Powers::sound_size, crate::proofs::Powers::other_size))]
pub fn cluster_sound(n: u64) -> bool
    ensures { result ≡ cluster_sound n }
{
    matches!(
        n,
        512 | 1024
            | 2048
            | 4096
            | 8192
            | 16384
            | 32768
            | 65536
            | 131_072
            | 262_144
            | 524_288
            | 1_048_576
            | 2_097_152
    )
}

/// A sound cluster size in bytes: a power of two from 512 to 2,097,152.
#[derive(Clone, Copy, Debug, PartialEq, Eq)]
pub struct ClusterSize {
    bytes: u64,
}

impl Model for ClusterSize {
    ghost use Rattle.std.specs.Prelude.{◌≡◌, ℕ, true};
    ghost use Rattle.format.specs.Number.{cluster_sound};

    ghost Value = { ℕ };

    ghost view = { λ c. c.bytes };

    ghost invariant = { λ c. cluster_sound c.bytes ≡ true };

    ghost inverse = { λ n. record { bytes = n } };
}

impl ClusterSize {
    /// The size, or none where it isn't sound.
    #[tactic(auto, unfolding(format::specs::Pick::pick))]
    pub fn new(bytes: u64) -> Option<ClusterSize>
        ensures { result ≡ pick (cluster_sound bytes) (Some bytes) None }
    {
        if cluster_sound(bytes) {
            Some(ClusterSize { bytes })
        } else {
            None
        }
    }

    /// The size in bytes.
    pub fn bytes(self) -> u64
        ensures size { result ≡ self }
        ensures sound { cluster_sound result ≡ true }
    {
        self.bytes
    }
}
