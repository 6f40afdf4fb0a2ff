// Floats and their bit patterns: the entry rules as tests on bits, the lesser of two weights.

ghost use Rattle.std.specs.Prelude.{◌≡◌, ◌≤◌, T};
ghost use Rattle.std.specs.Float.{binary32};
ghost use Rattle.std.specs.Float.Ieee.{to_bits, of_bits};
ghost use Rattle.definition.specs.Entry.{plain, small};
ghost use Rattle.definition.specs.Weights.{min_f};
ghost use Rattle.weights.specs.Nonneg.{nonneg};

// A frequency: finite and not negative.
pub fn is_plain(bits: u32) -> bool
    ensures { result ≡ plain (of_bits binary32 bits) }
{
    bits < 0x7f800000
}

// A cost or a scale: at most 2^20 as well.
pub fn is_small(bits: u32) -> bool
    ensures { result ≡ small (of_bits binary32 bits) }
{
    bits <= 0x49800000
}

pub fn float_of(bits: u32) -> f32
    requires { bits ≤ 0x7f80_0000 }
    ensures { (result ≡ of_bits binary32 bits) × T (nonneg result) }
{
    f32::from_bits(bits)
}

pub fn bits_of(x: f32) -> u32
    requires { T (nonneg x) }
    ensures { (result ≡ to_bits binary32 x) × (of_bits binary32 result ≡ x) × (result ≤ 0x7f80_0000) }
{
    f32::to_bits(x)
}

// `f32::min` where neither is a NaN: of a NaN and a number that gives the number, and this the first.
pub fn lesser(x: f32, y: f32) -> f32
    ensures { result ≡ min_f x y }
{
    if y < x { y } else { x }
}

// The same on bit patterns: the order of weights is that of their patterns.
pub fn lesser_bits(a: u32, b: u32) -> u32
    requires { (a ≤ 0x7f80_0000) × (b ≤ 0x7f80_0000) }
    ensures { (result ≡ to_bits binary32 (min_f (of_bits binary32 a) (of_bits binary32 b))) × (of_bits binary32 result ≡ min_f (of_bits binary32 a) (of_bits binary32 b)) × (result ≤ 0x7f80_0000) }
{
    a.min(b)
}
