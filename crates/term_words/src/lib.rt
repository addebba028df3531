// The words of a term that a state may hold, one by one: names and references, the headers of fields and methods, and which names are bound
// where a word stands.
#![tactic(auto)]

use layout::STATE_SLOTS;

pub mod header;
pub mod scopes;
pub mod word;

// Whose words are judged: the actor, how many words the dictionary of its state has, and the kinds of all entities of that state. Of
// the actor nothing is asked, and of the number of words only where names are read, which have seven bits.
#[derive(Clone, Copy)]
pub struct Owner<'a> {
    pub actor: u32,
    pub words: u32,
    pub kinds: &'a [u8; STATE_SLOTS],
}
