// Laws: a load, a move and a run leave a state a state. There is no code here, and nothing to be believed.
#![tactic(auto)]
