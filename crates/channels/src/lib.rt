// Machines whose moves use channels, lists of actors as such a machine, and AT-LITE as one. There is no code here, and nothing to be believed.
#![tactic(auto)]
