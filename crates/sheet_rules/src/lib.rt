// The form of a job sheet as its reader goes by it: the digits of a field, the fields of each record, and where the
// reader's table has its words.
#![tactic(auto)]

pub mod digits;
pub mod forms;
pub mod places;
