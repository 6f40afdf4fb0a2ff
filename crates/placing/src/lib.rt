// builder.rs, emit_vreg: what a register becomes is decided, and carried out around the pieces that a source writes.
#![tactic(auto)]

pub mod end;
pub mod finish;
pub mod plan;
pub mod row;
