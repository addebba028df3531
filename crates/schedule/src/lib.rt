// The proof of what crate `promises` claims of two lists of calls. There is no code here, and nothing to be believed.
#![tactic(auto)]
