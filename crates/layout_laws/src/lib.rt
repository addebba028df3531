// Laws of the words: a state and a table have one layout each, which words are one, what a change of some words changes, and how terms are
// read forward from a position. There is no code here, and nothing to be believed.
#![tactic(auto)]
