// builder.rs, emit_vreg: the two sources of pieces, a working part and the turned uses of an instruction, placed.
#![tactic(auto)]

pub mod conflict;
pub mod part;
