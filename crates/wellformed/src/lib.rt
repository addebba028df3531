// Where a term in a state's words ends, if it is one that the state may hold. A term is read forward, word by word.
#![tactic(auto)]

pub mod term;

pub use term::Terms;
