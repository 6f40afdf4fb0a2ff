// Why a register is not placed.

use definition::Stop;

// There is a stop, or a table is full: an error enum, as `?` wants one, and no Option, since both are errors.
#[derive(Clone, Copy, PartialEq, Eq)]
pub enum NotPlaced {
    Stopped(Stop),
    Full,
}
