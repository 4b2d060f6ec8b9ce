// What the buffer's calls mean (specs/) and the laws of it (proofs/). No code and no types: what a call hands back is of the crate
// `engine`, and the calls are in the crate `buffer`.
#![tactic(auto)]
