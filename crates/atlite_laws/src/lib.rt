// Laws of the definitions of `atlite`, for all that stands on them. There is no code here, and nothing to be believed.
#![tactic(auto)]
