// Text written into a lent buffer, piece after piece. What does not fit is left out; the end is counted all the same. Numbers are written
// here, since the library's `write!` says what it wrote only where it succeeds, and does not say that it succeeds; a report always ends.
ghost use Rattle.std.specs.Prelude.{◌≡◌, [], ◌∷◌, ◌+◌, ◌<◌, ◌≤◌, ◌^◌, length};
ghost use Rattle.report.specs.Text.{decimal, field, signed_field};
ghost use Rattle.report.specs.Inner.{Writes};

// A buffer, and where the text in it ends. How far a text may reach is a clause of each method and no invariant, since each piece adds a
// length of its own.
#[derive(Drop)]
pub struct Text<'a> {
    out: &'a mut [u8],
    pub end: usize,
}

fn digit(n: u64) -> u8
    requires { n < 10 }
    ensures { result ≡ 48 + n }
{
    b'0' + n as u8
}

impl<'a> Text<'a> {
    pub fn new(out: &'a mut [u8]) -> Text<'a>
        ensures same_reference { result.out.ghost_name ≡ out.entry.ghost_name }
        ensures same_bytes { result.out.now ≡ out.old }
        ensures end_value { result.end ≡ 0 }
    {
        Text { out, end: 0 }
    }

    fn put(&mut self, b: u8)
        requires { self.old.end < 2 ^ 40 }
        ensures { Writes self.old (b ∷ []) self.new }
    {
        let at = self.end;
        if at < self.out.len() {
            self.out[at] = b;
        }
        self.end = at + 1;
    }

    // A number in decimal.
    fn number(&mut self, n: u64)
        requires { self.old.end < 2 ^ 39 }
        ensures { Writes self.old (decimal n) self.new }
    {
        if n < 10 {
            self.put(digit(n));
        } else {
            self.number(n / 10);
            self.put(digit(n % 10));
        }
    }

    // A blank and a number.
    pub fn field(&mut self, n: u64)
        requires { self.old.end < 2 ^ 38 }
        ensures written { Writes self.old (field n) self.new }
        ensures upper_bound { self.new.end ≤ self.old.end + 24 }
    {
        self.put(b' ');
        self.number(n);
    }

    // A blank and a number with its sign.
    pub fn signed(&mut self, t: i32)
        requires { self.old.end < 2 ^ 38 }
        ensures written { Writes self.old (signed_field t) self.new }
        ensures upper_bound { self.new.end ≤ self.old.end + 24 }
    {
        self.put(b' ');
        if t < 0 {
            self.put(b'-');
        }
        self.number(u64::from(t.unsigned_abs()));
    }

    // A word.
    pub fn word(&mut self, word: &[u8])
        requires { (self.old.end < 2 ^ 38) × (length word.now ≤ 8) }
        ensures written { Writes self.old word.now self.new }
        ensures upper_bound { self.new.end ≤ self.old.end + 8 }
    {
        for b in word {
            self.put(*b);
        }
    }
}
