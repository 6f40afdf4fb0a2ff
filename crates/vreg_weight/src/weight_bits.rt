// The bits of a weight.
ghost use Rattle.std.specs.Prelude.{◌≤◌};

// The bits of a number that is not negative, or of the positive infinity.
#[derive(Clone, Copy)]
pub struct WeightBits {
    pub value: u32,
    pub ghost weighs: { value ≤ 0x7f80_0000 },
}
