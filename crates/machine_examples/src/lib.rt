// Examples of the machine's calls and machines that break the rules, computed (specs/Examples.antt, specs/Broken.antt). Apart
// from the model, whose laws are checked sooner without them. No code.
#![tactic(auto)]
