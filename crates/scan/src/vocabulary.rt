// The dictionary of a text: its words' numbers in two parts, in the order in which they are found; and words as they are lent and looked up.
ghost use Rattle.std.specs.Prelude.{◌≡◌, ◌≤◌, ◌<◌, true, false, length, take};
ghost use Rattle.std.proofs.Math.Seq.{slice};
ghost use Rattle.atlite.specs.Base.{all, bytes, same_bytes};
ghost use Rattle.atlite.specs.Lexicon.{in_word, is_word};
ghost use Rattle.scan.specs.Runs.{Run};
ghost use Rattle.scan.specs.WordNumbers.{low_part, high_part, Noted, Placed};

use crate::bytes::named;
use crate::codes::{high_part, low_part};
use crate::keywords::is_word;

// As many words as there are places in `low`, each with its two parts at one place.
#[derive(Clone, Copy)]
pub struct Words<'a> {
    pub low: &'a [u64],
    pub high: &'a [u32],
    pub ghost paired: { length low.now ≡ length high.now },
}

impl Words<'_> {
    // The place of a word: of letters and digits, which are twelve at most.
    pub fn find(&self, word: &[u8]) -> Option<usize>
        requires { (all in_word word.now ≡ true) × (length word.now ≤ 12) }
        ensures { Placed self.now.low.now self.now.high.now (length self.now.low.now) (low_part word.now) (high_part word.now) result }
    {
        self.place(low_part(word), high_part(word))
    }

    // The place of the word with the parts `low` and `high`.
    #[tactic(auto, using(crate::specs::WordNumberLaws::laws))]
    pub fn place(&self, low: u64, high: u32) -> Option<usize>
        ensures { Placed self.now.low.now self.now.high.now (length self.now.low.now) low high result }
    {
        for i in 0..self.low.len() {
            if self.low[i] == low && self.high[i] == high {
                return Some(i);
            }
        }
        None
    }
}

// The first `count` entries are words, and `apply` says whether that word, which has no place there, is one more. An engine never allocates: there
// is room for the words of the longest text.
#[derive(Drop)]
pub struct Vocabulary {
    pub low: [u64; 2048],
    pub high: [u32; 2048],
    pub count: usize,
    pub apply: bool,
    pub ghost room: { count ≤ 2048 },
}

impl Vocabulary {
    // None so far.
    pub fn new() -> Vocabulary
        ensures { (result.count ≡ 0) × (result.apply ≡ false) }
    {
        Vocabulary {
            low: [0; 2048],
            high: [0; 2048],
            count: 0,
            apply: false,
        }
    }

    // The words that it has.
    pub fn words(&self) -> Words<'_>
        ensures { (length result.low.now ≡ self.now.count) × (result.low.now ≡ take self.now.count self.now.low) × (result.high.now ≡ take self.now.count self.now.high) }
    {
        Words {
            low: &self.low[..self.count],
            high: &self.high[..self.count],
        }
    }

    // The place of the word with the parts `low` and `high`.
    #[tactic(auto, using(crate::specs::WordNumberLaws::laws))]
    fn place(&self, low: u64, high: u32) -> Option<usize>
        ensures { Placed self.now.low self.now.high self.now.count low high result }
    {
        self.words().place(low, high)
    }

    // Takes in the run from `at` to `end` if it is a new word.
    #[tactic(auto, using(crate::specs::DictionaryLaws::laws))]
    pub fn note(&mut self, text: &[u8], at: usize, end: usize)
        requires { Run text.now at end × (self.old.count < 2048) }
        ensures { Noted (slice at end text.now) self.old.low self.old.high self.old.count self.old.apply self.new.low self.new.high self.new.count self.new.apply }
    {
        if !is_word(text, at, end) {
            return;
        }
        if named(text, at, end, b"apply") {
            self.apply = true;
            return;
        }
        self.add(&text[at..end]);
    }

    // Puts a word behind the others if it is none of them.
    #[tactic(auto, using(crate::specs::DictionaryLaws::laws))]
    fn add(&mut self, word: &[u8])
        requires { (self.old.count < 2048) × (is_word word.now ≡ true) × (same_bytes (bytes "apply") word.now ≡ false) }
        ensures { Noted word.now self.old.low self.old.high self.old.count self.old.apply self.new.low self.new.high self.new.count self.new.apply }
    {
        let low = low_part(word);
        let high = high_part(word);
        if self.place(low, high).is_none() {
            self.low[self.count] = low;
            self.high[self.count] = high;
            self.count += 1;
        }
    }
}
