// Entry tests 5 and 6: the hints of a job, and its segments.
#![tactic(auto)]

pub mod hint;
pub mod segment;
