// The number of a group that is to be.
ghost use Rattle.std.specs.Prelude.{◌+◌, ◌^◌, ◌<◌};

use definition::VirtRegGroup;

// A group whose number + 1 is a word.
#[derive(Clone, Copy)]
pub struct NewGroup {
    pub group: VirtRegGroup,
    pub ghost counted: { group.0 + 1 < 2 ^ 32 },
}
