// What a use costs.
ghost use Rattle.std.specs.Prelude.{T};
ghost use Rattle.definition.specs.Entry.{small};

// A cost: not negative, and at most 2^20.
#[derive(Clone, Copy)]
pub struct Cost {
    pub value: f32,
    pub ghost small: { T (small value) },
}
