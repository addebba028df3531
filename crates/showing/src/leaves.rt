// The text of a word with no operands: a value or a variable.
ghost use Rattle.std.specs.Prelude.{◌<◌};
ghost use Rattle.layout.specs.Numbers.{owner_limit};
ghost use Rattle.showing.specs.Put.{Put};
ghost use Rattle.showing.specs.TextOfWords.{series_in, owner_in, ref_in, leaf_in};

use crate::Writer;
use layout::{NAME_LIMIT, NUMBER_LIMIT, OWNER_LIMIT, OWNER_UNIT, PAYLOAD, kind};

impl Writer<'_> {
    // A series, between two numbers.
    pub fn put_series(&mut self, s: u32)
        ensures { Put self.old (series_in s) self.new }
    {
        if s == 0 {
            self.put_bytes(b" m ");
        } else {
            self.put_bytes(b" c ");
        }
    }

    // The actor of a reference.
    fn put_owner(&mut self, a: u32)
        requires { a < owner_limit }
        ensures { Put self.old (owner_in a) self.new }
    {
        self.put_bytes(b"(ref ");
        self.put_number(a);
    }

    // A reference: actor, series and number.
    fn put_ref(&mut self, h: u32)
        ensures { Put self.old (ref_in h) self.new }
    {
        self.put_owner(h / OWNER_UNIT % OWNER_LIMIT);
        self.put_series(h / NUMBER_LIMIT % 2);
        self.put_number(h % NUMBER_LIMIT);
        self.put(b')');
    }

    // A word of a kind below 7: a value or a variable.
    pub fn put_leaf(&mut self, t: &[u32], h: u32)
        ensures { Put self.old (leaf_in t.now h) self.new }
    {
        match h / PAYLOAD {
            kind::NULL => self.put_keyword(1),
            kind::NUMBER => self.put_number(h % PAYLOAD),
            kind::REFERENCE => self.put_ref(h),
            _ => self.put_word(t, h % NAME_LIMIT),
        }
    }
}
