// A sum of costs.
ghost use Rattle.std.specs.Prelude.{◌≡◌, T};
ghost use Rattle.definition.specs.RegInfo.{zero_f};
ghost use Rattle.weights.specs.Nonneg.{nonneg};

// A number that is not negative, or the positive infinity.
#[derive(Clone, Copy)]
pub struct Sum {
    pub value: f32,
    pub ghost nonneg: { T (nonneg value) },
}

impl Sum {
    // The sum of no costs.
    pub fn zero() -> Sum
        ensures { result.value ≡ zero_f }
    {
        Sum { value: 0.0 }
    }
}
