// Laws of the requests: what each brought, and what it left as it was. There is no code here, and nothing to be believed.
#![tactic(auto)]
