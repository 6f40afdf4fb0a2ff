// A number that is finite and not negative.
ghost use Rattle.std.specs.Prelude.{T};
ghost use Rattle.definition.specs.Entry.{plain};

// A frequency, a scaled cost or a normalized sum.
#[derive(Clone, Copy)]
pub struct Plain {
    pub value: f32,
    pub ghost plain: { T (plain value) },
}
