// A text, and bytes, numbers and terms put into it.
ghost use Rattle.std.specs.Prelude.{◌≡◌, ◌<◌, [], ◌∷◌};
ghost use Rattle.covering.specs.Record.{term_of};
ghost use Rattle.printing.specs.Printed.{decimal, term_text, relation_text, figure};
ghost use Rattle.printing.specs.Text.{HasRoom, Adds};

// A text that bytes are put into, one after the other: the bytes that it has room in, and where those put so far end.
#[derive(Drop)]
pub struct Text<'a> {
    pub room: &'a mut [u8],
    pub end: usize,
}

impl<'a> Text<'a> {
    // A text with nothing put into it yet.
    pub fn new(room: &'a mut [u8]) -> Text<'a>
        ensures room { result.room.now ≡ room.old }
        ensures same { result.room.ghost_name ≡ room.entry.ghost_name }
        ensures end { result.end ≡ 0 }
    {
        Text { room, end: 0 }
    }

    // Puts the bytes.
    pub fn put(&mut self, bytes: &[u8])
        requires { HasRoom bytes.now self.old }
        ensures { Adds bytes.now self.old self.new }
    {
        let end = self.end + bytes.len();
        self.room[self.end..end].copy_from_slice(bytes);
        self.end = end;
    }

    // Puts the digit n.
    fn put_digit(&mut self, n: usize)
        requires { (n < 10) × HasRoom (figure n ∷ []) self.old }
        ensures { Adds (figure n ∷ []) self.old self.new }
    {
        self.put(&[b'0' + n as u8]);
    }

    // Puts the number n in decimal: its tenth first, then its last digit. By hand, since `write!` says what it wrote
    // only where it did not fail, and what `answer` promises has no such case.
    #[tactic(auto, using(crate::proofs::Decimal::one_length, crate::proofs::Decimal::more_length))]
    pub fn put_decimal(&mut self, n: usize)
        requires { HasRoom (decimal n) self.old }
        ensures { Adds (decimal n) self.old self.new }
    {
        if n < 10 {
            return self.put_digit(n);
        }
        self.put_decimal(n / 10);
        self.put_digit(n % 10);
    }

    // Puts the term that a place holds.
    pub fn put_term(&mut self, b: u8)
        requires { HasRoom (term_text (term_of b)) self.old }
        ensures { Adds (term_text (term_of b)) self.old self.new }
    {
        if b < 128 {
            self.put(b"v");
            return self.put_decimal(usize::from(b));
        }
        self.put(b"c");
        self.put_decimal(usize::from(b - 128));
    }

    // Puts an atom's relation: its number, or the letter of an answer record.
    pub fn put_relation(&mut self, r: u8)
        requires { HasRoom (relation_text r) self.old }
        ensures { Adds (relation_text r) self.old self.new }
    {
        if r == 255 {
            return self.put(b"a");
        }
        self.put(b"r");
        self.put_decimal(usize::from(r));
    }
}
