// What is promised, all of it to be believed: each call as a function of the words and bytes that it is lent, and what two lists of calls
// that agree end in. The definitions are in specs/; there is no code here.
#![tactic(auto)]
