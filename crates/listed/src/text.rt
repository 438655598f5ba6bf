// Text written into a lent buffer as far as it fits. The place goes on past the end, so that the whole length is known.
ghost use Rattle.std.specs.Prelude.{◌≡◌, [], ◌∷◌, ◌+◌, ◌<◌, ◌^◌, length};
ghost use Rattle.listed.specs.Text as T;
ghost use Rattle.listed.specs.Put.{Wrote, WroteFew};

// The buffer, and how long the text in it is so far.
// Stays: how long the text is at most is a clause of what writes, since each line that is written leaves less.
#[derive(Drop)]
pub struct Text<'a> {
    pub bytes: &'a mut [u8],
    pub n: usize,
}

fn digit(d: u32) -> u8
    requires { d < 10 }
    ensures { result ≡ T.digit d }
{
    b'0' + d as u8
}

impl Text<'_> {
    // One byte.
    pub fn push(&mut self, b: u8)
        requires { self.old.n < 2 ^ 40 }
        ensures { Wrote self.old self.new (b ∷ []) }
    {
        if self.n < self.bytes.len() {
            self.bytes[self.n] = b;
        }
        self.n += 1;
    }

    // Several bytes.
    pub fn write(&mut self, word: &[u8])
        requires { self.old.n + length word.now < 2 ^ 40 }
        ensures { Wrote self.old self.new word.now }
    {
        for b in word {
            self.push(*b);
        }
    }

    // A number in decimal.
    // Stays: what `write!` writes is promised only where it returns `Ok`, and no listing can fail; the digits have their own definition.
    pub fn decimal(&mut self, w: u32)
        requires { self.old.n < 2 ^ 39 }
        ensures { WroteFew self.old self.new (T.decimal w) 10 }
    {
        if w < 10 {
            self.push(digit(w));
            return;
        }
        self.decimal(w / 10);
        self.push(digit(w % 10));
    }
}
