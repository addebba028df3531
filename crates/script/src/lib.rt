// Script text as a caller sees it: a reader of texts into tables, a printer of tables, and the test for a table.
//
// The reader works in passes over a scratch form with room for any text of 4,096 bytes: dictionary, grammar (2), bound variables (3), lists
// (4), limits (5), table. The table is written last, when nothing can refuse the text any more. The printer makes the text that the words
// would have, reads it, and compares: words are a table exactly if they come back.
#![tactic(auto)]

mod printing;
mod reader;

pub use printing::{is_table, print};
pub use reader::read;

// The bytes that a text may have.
const TEXT: usize = 4096;
