// The reader: the text and the position in it, together; it gives one line at a time.
#![tactic(auto)]

ghost use Rattle.std.specs.Prelude.{◌≡◌};
ghost use Rattle.line.specs.Row.{read_line};
ghost use Rattle.fault.specs.Refusal.{part_of};
ghost use Rattle.reader.specs.Moved.{said_of, place_after};

use digits::Read;
use fault::Refusal;
use form::{Due, Line};

#[derive(Clone, Copy)]
pub struct Reader<'a> {
    pub text: &'a [u8],
    pub at: usize,
}

impl<'a> Reader<'a> {
    // At the first byte of a text.
    pub fn on(text: &'a [u8]) -> Reader<'a>
        ensures { (result.text ≡ text.entry) × (result.at ≡ 0) }
    {
        Reader { text, at: 0 }
    }

    // The line that is due where the reader stands; it is moved on behind a line that it gives.
    pub fn next_line(&mut self, due: Due) -> Result<Line, Refusal>
        ensures line { result ≡ said_of (read_line due self.old.text.now self.old.at) }
        ensures place { self.new.at ≡ place_after self.old.at (read_line due self.old.text.now self.old.at) }
        ensures text { self.new.text ≡ self.old.text }
    {
        let x = line::read_line(self.text, self.at, due)?;
        self.at = x.next;
        Ok(x.value)
    }

    // The part at fault, of the caller's own text.
    pub fn fault(self, why: Refusal) -> &'a [u8]
        ensures { result.now ≡ part_of self.entry.text.now why }
    {
        fault::part_at_fault(self.text, why)
    }
}

// The line that is due at a place of a text, for callers that keep both themselves.
pub fn line_of(text: &[u8], at: usize, due: Due) -> Result<Read<Line>, Refusal>
    ensures { result ≡ read_line due text.now at }
{
    let mut r = Reader { text, at };
    let value = r.next_line(due)?;
    Ok(Read { value, next: r.at })
}

// The part of a text at fault, likewise.
pub fn fault_of(text: &[u8], why: Refusal) -> &[u8]
    ensures { result.now ≡ part_of text.now why }
{
    Reader::on(text).fault(why)
}
