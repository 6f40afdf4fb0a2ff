// The reader of job sheets: words of a byte slice, a field and a line, the reader of the first form, and in front of it
// the reader of either form.
#![tactic(auto)]

pub mod cells;
pub mod either;
pub mod fields;
pub mod first;
