//! The reader of texts, part by part.
ghost use Rattle.std.specs.Prelude.{◌≡◌, ◌<◌, length, drop, IfOk};
ghost use Rattle.text.specs.Reads.{beside, head_of, word_at, gap_at, numeral_at, number_at, within};
ghost use Rattle.text.specs.declared.fault.ReadFault.TheVariants.{Form as FormFault};

use crate::fault::ReadFault;
use std::ops::Range;

mod formulas;
mod lines;

// Each part of a form is taken by `let .. else`, or the form fault is given: users read the reader by this form.
/// The bytes of a text that are still to be read.
#[derive(Drop)]
pub(crate) struct Reader<'a> {
    pub(crate) rest: &'a [u8],
}

impl Reader<'_> {
    /// The byte at which the reader stands.
    fn peek(&self) -> Option<u8>
        ensures { result ≡ head_of self.now.rest.now }
    {
        self.rest.first().copied()
    }

    /// Goes past one byte.
    fn skip(&mut self)
        requires { 0 < length self.old.rest.now }
        ensures { self.new.rest.now ≡ drop 1 self.old.rest.now }
    {
        self.rest = &self.rest[1..];
    }

    /// The fault that no lawful line goes on here.
    fn unfit(&self) -> ReadFault
        ensures { result ≡ FormFault (length self.now.rest.now) }
    {
        ReadFault::Form(self.rest.len())
    }

    /// Takes the letters of a word, or stops at the byte that does not fit.
    fn word(&mut self, letters: &[u8]) -> Option<()>
        ensures { (result, self.new.rest.now) ≡ word_at letters.now self.old.rest.now }
    {
        // Not `strip_prefix`: a form fault stands at the first byte that does not fit.
        for &c in letters {
            if self.peek()? != c {
                return None;
            }
            self.skip();
        }
        Some(())
    }

    /// Takes one or more spaces.
    fn gap(&mut self) -> Option<()>
        ensures { (result, self.new.rest.now) ≡ gap_at self.old.rest.now }
    {
        let Some(b' ') = self.peek() else {
            return None;
        };
        self.skip();
        while let Some(b' ') = self.peek() {
            self.skip();
        }
        Some(())
    }

    /// Takes a number of one to four digits.
    fn numeral(&mut self) -> Option<u16>
        ensures { (result, self.new.rest.now) ≡ numeral_at self.old.rest.now }
    {
        let Some(first @ b'0'..=b'9') = self.peek() else {
            return None;
        };
        self.skip();
        let mut n = u16::from(first - b'0');
        for _ in 0..3u8 {
            let Some(d @ b'0'..=b'9') = self.peek() else {
                return Some(n);
            };
            self.skip();
            n = n * 10 + u16::from(d - b'0');
        }
        match self.peek() {
            Some(b'0'..=b'9') => None,
            _ => Some(n),
        }
    }

    /// Takes a number that the range has.
    fn number(&mut self, range: Range<u16>) -> Result<u16, ReadFault>
        ensures reads { beside result self.new.rest.now ≡ number_at (within range.start range.end) self.old.rest.now }
        ensures below { IfOk result (λ n. n < range.end) }
    {
        let place = self.rest.len();
        let Some(n) = self.numeral() else {
            return Err(self.unfit());
        };
        if !range.contains(&n) {
            return Err(ReadFault::Range(place));
        }
        Ok(n)
    }
}
