// The two conversions of a job sheet and the order on whole jobs: the laws are in specs.
#![tactic(auto)]
