// The checks of a script in its scratch form (crate `words`), and the words of its table.
//
// A script that is of the grammar stands in at most 4,096 wide words. Each pass below answers as the definition does for the lines
// that stand there; of words that are no script nothing is said, and a pass is safe and ends on them too.
#![tactic(auto)]

pub mod bound;
pub mod depth;
pub mod scope;
pub mod single;
pub mod size;
pub mod table;
pub mod tree;
