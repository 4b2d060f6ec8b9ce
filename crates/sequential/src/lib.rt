// The sequential run of a program, the record of a list of calls, and why each call keeps the window to the run, over any engine
// that owes what proofs/Owing.antt asks. No code.
#![tactic(auto)]
