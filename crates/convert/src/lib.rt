// A job sheet moved to its other form: the verdict on it, the run of the programs, and the same in memory.
#![tactic(auto)]

pub mod memory;
pub mod run;
pub mod verdict;
