// The result tables written (mod.rs): rows put behind those in use, words of rows changed, the place of a piece found, and gaps
// opened among a register's pieces.
#![tactic(auto)]

pub mod change;
pub mod find;
pub mod insert;
pub mod put;
