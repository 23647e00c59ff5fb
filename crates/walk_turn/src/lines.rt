// Lines of text, stored in a lent slice one after another. What does not fit is left out, and counts all the same.
ghost use Rattle.std.specs.Prelude.{◌≡◌, [], ◌∷◌, ◌+◌, ◌<◌, ◌≤◌, ◌^◌, length, get_or, pos};
ghost use Rattle.refusal.specs.Numbers.{number};
ghost use Rattle.walk_turn.specs.Lines.{signed, line, pair_line, refused_line, drop_lines};
ghost use Rattle.walk_turn.specs.Wrote.{Wrote};

use refusal::Refusal;
use store_bytes::copy;

// A text that grows, from the front of a lent slice on.
#[derive(Drop)]
pub(crate) struct Lines<'a> {
    text: &'a mut [u8],
    pub(crate) size: usize,
}

fn number_at(ends: &[i64], at: usize) -> i64
    ensures { result ≡ get_or ends.now at (pos 0) }
{
    ends.get(at).copied().unwrap_or(0)
}

impl<'a> Lines<'a> {
    // None yet.
    pub(crate) fn new(text: &'a mut [u8]) -> Lines<'a>
        ensures text { result.text.now ≡ text.old }
        ensures same { result.text.ghost_name ≡ text.entry.ghost_name }
        ensures size { result.size ≡ 0 }
    {
        Lines { text, size: 0 }
    }

    fn put(&mut self, bytes: &[u8])
        requires { (self.old.size < 2 ^ 33) × (length bytes.now < 2 ^ 33) }
        ensures { Wrote self.old self.new bytes.now }
    {
        copy(self.text, self.size, bytes);
        self.size += bytes.len();
    }

    // A number in signed decimal.
    fn number(&mut self, n: i64)
        requires { self.old.size < 2 ^ 33 }
        ensures wrote { Wrote self.old self.new (signed n) }
        ensures short { self.new.size ≤ self.old.size + 40 }
    {
        self.put(itoa::Buffer::new().format(n).as_bytes());
    }

    // A line of a word and a number. The word has its space.
    pub(crate) fn line(&mut self, word: &[u8], n: i64)
        requires { (self.old.size < 2 ^ 32) × (length word.now ≤ 8) }
        ensures wrote { Wrote self.old self.new (line word.now n) }
        ensures short { self.new.size ≤ self.old.size + 49 }
    {
        self.put(word);
        self.number(n);
        self.put(b"\n");
    }

    // A line of a word and two numbers.
    pub(crate) fn pair(&mut self, word: &[u8], a: i64, b: i64)
        requires { (self.old.size < 2 ^ 32) × (length word.now ≤ 8) }
        ensures wrote { Wrote self.old self.new (pair_line word.now a b) }
        ensures short { self.new.size ≤ self.old.size + 90 }
    {
        self.put(word);
        self.number(a);
        self.put(b" ");
        self.number(b);
        self.put(b"\n");
    }

    // The line of a refusal.
    pub(crate) fn refused(&mut self, refusal: Refusal)
        requires { self.old.size < 2 ^ 32 }
        ensures { Wrote self.old self.new (refused_line (number refusal)) }
    {
        self.line(b"no ", i64::from(u8::from(refusal)));
    }

    // The lines of the first n dropped requests, each of which has two numbers in `ends`, its other end.
    // Kept: two numbers side by side, since the C interface has `gone` and `run_out` write them so.
    pub(crate) fn drops(&mut self, ends: &[i64], n: usize)
        requires { (self.old.size ≤ 64) × (n ≤ 64) }
        ensures { Wrote self.old self.new (drop_lines n ends.now) }
    {
        for i in 0..n {
            let place = number_at(ends, 2 * i);
            let number = number_at(ends, 2 * i + 1);
            self.pair(b"drop ", place, number);
        }
    }
}
