// Lines of the listing: a word, numbers in decimal with a space in front of each, the end of the line.
ghost use Rattle.std.specs.Prelude.{◌+◌, ◌*◌, ◌<◌, ◌^◌, length};
ghost use Rattle.listed.specs.Text as T;
ghost use Rattle.listed.specs.Put.{WroteFew};

use crate::text::Text;

impl Text<'_> {
    // A number.
    fn field(&mut self, w: u32)
        requires { self.old.n < 2 ^ 38 }
        ensures { WroteFew self.old self.new (T.field w) 11 }
    {
        self.push(b' ');
        self.decimal(w);
    }

    // A line of a word and numbers.
    pub fn line(&mut self, word: &[u8], numbers: &[u32])
        requires { self.old.n + length word.now + 11 * length numbers.now < 2 ^ 37 }
        ensures { WroteFew self.old self.new (T.line word.now numbers.now)
            (length word.now + 11 * length numbers.now + 1) }
    {
        self.write(word);
        for w in numbers {
            self.field(*w);
        }
        self.push(b'\n');
    }
}
