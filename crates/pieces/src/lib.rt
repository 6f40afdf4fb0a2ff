// The row of a piece of a part and of turned uses (builder.rs), and the group operands of their uses mapped.
#![tactic(auto)]

pub mod conflict;
pub mod maps;
pub mod part;
