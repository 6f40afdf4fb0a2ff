// What a walk has told so far.
use super::Near;
use definition::Inst;
use weights::Sum;

// The sum of costs, and the block of the last use.
#[derive(Clone, Copy)]
pub struct Costs {
    pub total: Sum,
    pub near: Near,
}

// The costs, the instructions touched, those counted already (all below `counted`), and whether a piece has a fixed
// hint.
#[derive(Clone, Copy)]
pub struct Tally {
    pub costs: Costs,
    pub insts: u32,
    pub counted: Inst,
    pub hint: bool,
}
