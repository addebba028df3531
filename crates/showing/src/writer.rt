// A text that is written from its front, and the bytes and numbers that are put into it.
ghost use Rattle.std.specs.Prelude.{◌≤◌};
ghost use Rattle.showing.specs.Writer.{most};

// Where positions stop.
const MOST: usize = 1099511627776;

// A text, and the position behind its last byte. A byte is stored where the text has room and counted in any case, so that the same code
// measures a text and writes it. Positions stop at 2^40, which no text comes near.
#[derive(Drop)]
pub struct Writer<'a> {
    out: &'a mut [u8],
    len: usize,
    ghost bounded: { len ≤ most },
}

impl<'a> Writer<'a> {
    ghost use Rattle.std.specs.Prelude.{[], ◌∷◌, ◌≡◌, ◌<◌};
    ghost use Rattle.atlite.specs.Printer.{print_number};
    ghost use Rattle.showing.specs.Put.{Put};

    // A text with nothing in it yet.
    pub fn new(out: &'a mut [u8]) -> Writer<'a>
        ensures same { result.out.ghost_name ≡ out.entry.ghost_name }
        ensures bytes { result.out.now ≡ out.old }
        ensures empty { result.len ≡ 0 }
    {
        Writer { out, len: 0 }
    }

    // How many bytes were put.
    pub fn len(&self) -> usize
        ensures { result ≡ self.now.len }
    {
        self.len
    }

    pub fn put(&mut self, b: u8)
        ensures { Put self.old (b ∷ []) self.new }
    {
        if MOST <= self.len {
            return;
        }
        if self.len < self.out.len() {
            self.out[self.len] = b;
        }
        self.len += 1;
    }

    pub fn put_bytes(&mut self, s: &[u8])
        ensures { Put self.old s.now self.new }
    {
        for b in s {
            self.put(*b);
        }
    }

    // A number of at most eight digits. `write!` promises no text where it answers Err, which a writer that never gives up cannot rule out.
    pub fn put_number(&mut self, n: u32)
        requires { n < 100000000 }
        ensures { Put self.old (print_number n) self.new }
    {
        self.put_bytes(itoa::Buffer::new().format(n).as_bytes());
    }
}
