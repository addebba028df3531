// Laws of the reader: it takes exactly the texts that some table prints. There is no code here.
#![tactic(auto)]
