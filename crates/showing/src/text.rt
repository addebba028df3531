// Words put into a text: those of a dictionary, names with their tags and the words that the grammar keeps for itself.
ghost use Rattle.std.specs.Prelude.{◌≡◌, get_or};
ghost use Rattle.decoding.specs.Kinds.{word_in as word_of};
ghost use Rattle.showing.specs.Put.{Put};
ghost use Rattle.showing.specs.TextOfWords.{letter_in, letters_in, known_in, word_in, tagged_in, name_in};

use crate::Writer;
use layout::{NAME_LIMIT, NO_NAME, kind, tag};

// The words that no dictionary has come first, then those of the dictionary.
const KNOWN: u32 = 8;

const WORDS: u32 = KNOWN + 64;

// The word of `t` at `i`, or 0 behind its end.
fn word(t: &[u32], i: usize) -> u32
    ensures { result ≡ get_or t.now i 0 }
{
    match t.get(i) {
        Some(w) => *w,
        None => 0,
    }
}

// The words that no dictionary has. Their numbers have no other names: this table is what names them.
fn known(x: u32) -> &'static [u8]
    ensures { result.now ≡ known_in x }
{
    match x {
        0 => b"this",
        1 => b".t",
        2 => b".f",
        3 => b".r",
        4 => b".l",
        5 => b".s",
        6 => b".x",
        _ => b"apply",
    }
}

// The word of kind `k`, or nothing where it has none.
fn keyword(k: u32) -> &'static [u8]
    ensures { result.now ≡ word_of k }
{
    match k {
        kind::NULL => b"null",
        kind::VARIABLE => b"this",
        kind::PLUS => b"plus",
        kind::PERCENT => b"percent",
        kind::GET => b"get",
        kind::SET => b"set",
        kind::LET => b"let",
        kind::FUTURE => b"future",
        kind::CALL => b"call",
        kind::SEND => b"send",
        kind::OBJECT => b"object",
        kind::ISOLATE => b"isolate",
        kind::ACTOR => b"actor",
        kind::SAME => b"same",
        kind::CHOOSE => b"if",
        kind::ASK => b"ask",
        kind::FN => b"fn",
        kind::RESOLVE => b"resolve",
        kind::WHEN => b"when",
        kind::SEQ => b"seq",
        kind::FIELD => b"field",
        kind::DEFINITION => b"def",
        kind::METHOD => b"method",
        _ => b"",
    }
}

impl Writer<'_> {
    // A letter; zero is none.
    fn put_letter(&mut self, b: u8)
        ensures { Put self.old (letter_in b) self.new }
    {
        if b != 0 {
            self.put(b);
        }
    }

    // The letters in one word of the dictionary, the first lowest.
    fn put_letters(&mut self, v: u32)
        ensures { Put self.old (letters_in v) self.new }
    {
        for b in v.to_le_bytes() {
            self.put_letter(b);
        }
    }

    // The word of number `x`. A dictionary has at most 64 words, and zeros stand behind its last one.
    pub(crate) fn put_word(&mut self, t: &[u32], x: u32)
        ensures { Put self.old (word_in t.now x) self.new }
    {
        if x < KNOWN {
            self.put_bytes(known(x));
        } else if x < WORDS {
            let i = 3 * x as usize;
            self.put_letters(word(t, i - 22));
            self.put_letters(word(t, i - 21));
            self.put_letters(word(t, i - 20));
        }
    }

    // A name with its tag: the word alone, the word with the two-way mark, or a name that no script can write.
    fn put_tagged(&mut self, t: &[u32], c: u32)
        ensures { Put self.old (tagged_in t.now c) self.new }
    {
        match c / NAME_LIMIT {
            tag::PLAIN => self.put_word(t, c),
            tag::TWO_WAY => {
                self.put_word(t, c - NAME_LIMIT);
                self.put_bytes(b".f");
            }
            tag::RESOLVE => self.put_bytes(b".resolve"),
            _ => self.put_bytes(b".register"),
        }
    }

    // The same behind a space.
    pub(crate) fn put_name(&mut self, t: &[u32], c: u32)
        ensures { Put self.old (name_in t.now c) self.new }
    {
        if c != NO_NAME {
            self.put(b' ');
            self.put_tagged(t, c);
        }
    }

    pub(crate) fn put_keyword(&mut self, k: u32)
        ensures { Put self.old (word_of k) self.new }
    {
        self.put_bytes(keyword(k));
    }
}
