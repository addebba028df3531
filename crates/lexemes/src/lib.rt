// What of a script's text holds no expression, into scratch words: names, numbers, atoms, the parameters of a method. Nothing here calls the
// reader of expressions.
#![tactic(auto)]

pub mod atoms;
pub mod headers;
pub mod names;
pub mod numbers;
pub mod scratch;
pub mod source;
