// A text with its dictionary.
ghost use Rattle.std.specs.Prelude.{◌≤◌, length};
ghost use Rattle.atlite.specs.Lexicon.{dictionary};
ghost use Rattle.scan.specs.WordNumbers.{Holds};

use scan::Words;

// A text of at most 4,096 bytes, and the words of its dictionary, at most 2,048, in the order in which `scan::scan` finds them. They have a
// lifetime of their own, since a field takes no struct with references of another lifetime.
#[derive(Clone, Copy)]
pub struct Source<'a, 'w> {
    pub text: &'a [u8],
    pub words: Words<'w>,
    pub ghost held: { Holds (dictionary text.now) words.low.now words.high.now (length words.low.now) },
    pub ghost few: { length words.low.now ≤ 2048 },
    pub ghost short: { length text.now ≤ 4096 },
}
