// The hints of a job as they are lent.
ghost use Rattle.std.specs.Prelude.{◌≡◌, true};
ghost use Rattle.definition.specs.Entry.{chained, not_after};
ghost use Rattle.hints.specs.Hints.{hint_rows};

use words::rows::Rows;

// No hint is sorted after the one behind it.
#[derive(Clone, Copy)]
pub struct Hints<'a> {
    pub rows: Rows<'a, 3>,
    pub ghost sorted: { chained not_after (hint_rows rows) ≡ true },
}
