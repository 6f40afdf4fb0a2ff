// Entry test 7: the uses of each segment of a job, and of one use its kind and fields.
#![tactic(auto)]

pub mod kind;
pub mod lists;
