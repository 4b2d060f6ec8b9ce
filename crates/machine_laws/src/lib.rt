// The laws that tie the machine's code to its meaning. No code and no types: specs/Computed says how the code computes, proofs/ that
// this is what crates/machine_model says.
#![tactic(auto)]
