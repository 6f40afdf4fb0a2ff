// The readers of job sheets give what the definition gives, for every list of bytes, in the first form and in either; and
// what stands where in the table that the records fill. The laws are in specs.
#![tactic(auto)]
