// Examples of lists of calls, computed (specs/Calls.antt). Apart from the theorem, whose laws are checked sooner without them. No
// code.
#![tactic(auto)]
