// Lines, their parts and their numbers.
ghost use Rattle.std.specs.Prelude.{◌≡◌, ◌<◌, ◌≤◌, length, IfSome, IfOk};
ghost use Rattle.translator.specs.Lines.{line_length, cut, cut_at};
ghost use Rattle.translator.specs.Reads.{Tells, next_line, next_part, next_number, next_signed, line_end, fault_at};
ghost use Rattle.translator.specs.Reads.{keyword};
ghost use Rattle.translator.specs.Readers.{place_of};

use crate::cursor::Reader;
use crate::numerals::{numeral, signed};
use task::{Fault, Kind, Layer};

// How many bytes stand before the first newline, if there is one.
fn newline(bytes: &[u8]) -> Option<usize>
    ensures value { result ≡ line_length bytes.now }
    ensures within { IfSome result (λ n. n < length bytes.now) }
{
    bytes.iter().position(|byte| *byte == b'\n')
}

// How many bytes of the line stand before its first space; all where it has none.
fn space(line: &[u8]) -> usize
    ensures value { cut line.now ≡ cut_at line.now result }
    ensures within { result ≤ length line.now }
{
    line.iter()
        .position(|byte| *byte == b' ')
        .unwrap_or(line.len())
}

impl<'a> Reader<'a> {
    // A fault of the line in hand.
    pub(crate) fn fault(&self, kind: Kind) -> Fault
        ensures { result ≡ fault_at kind self.now.line }
    {
        Layer::Reading.fault(kind, self.line)
    }

    // Goes on to the next line, and answers it without its newline.
    pub(crate) fn next_line(&mut self) -> Result<&'a [u8], Fault>
        ensures tells { Tells (λ s. s.now) (next_line (place_of self.old)) result (place_of self.new) }
        ensures short { IfOk result (λ s. length s.now ≤ 65536) }
    {
        let bytes = self.bytes;
        let start = self.next;
        let Some(count) = newline(&bytes[start..]) else {
            return Err(Layer::Reading.fault(Kind::EndsEarly, self.line + 1));
        };
        self.place = start;
        self.next = start + count + 1;
        self.line += 1;
        Ok(&bytes[start..start + count])
    }

    // A line that is the word.
    pub(crate) fn keyword(&mut self, word: &[u8]) -> Result<(), Fault>
        ensures { Tells (λ v. tt) (keyword word.now (place_of self.old)) result (place_of self.new) }
    {
        let line = self.next_line()?;
        if line == word {
            Ok(())
        } else {
            Err(self.fault(Kind::WrongWord))
        }
    }

    // The next part of the line in hand: up to the next space, or to the line's end.
    pub(crate) fn next_part(&mut self) -> Result<&'a [u8], Fault>
        ensures { Tells (λ s. s.now) (next_part (place_of self.old)) result (place_of self.new) }
    {
        if self.place >= self.next {
            return Err(self.fault(Kind::BadNumber));
        }
        let bytes = self.bytes;
        let start = self.place;
        let end = self.next - 1;
        let count = space(&bytes[start..end]);
        self.place = start + count + 1;
        Ok(&bytes[start..start + count])
    }

    // The next number of the line in hand.
    pub(crate) fn next_number(&mut self) -> Result<u32, Fault>
        ensures { Tells (λ v. v) (next_number (place_of self.old)) result (place_of self.new) }
    {
        let part = self.next_part()?;
        numeral(part).ok_or(self.fault(Kind::BadNumber))
    }

    // The next number of the line in hand, where -1 may stand.
    pub(crate) fn next_signed(&mut self) -> Result<i64, Fault>
        ensures { Tells (λ v. v) (next_signed (place_of self.old)) result (place_of self.new) }
    {
        let part = self.next_part()?;
        signed(part).ok_or(self.fault(Kind::BadNumber))
    }

    // That no part of the line in hand is left.
    pub(crate) fn line_end(&mut self) -> Result<(), Fault>
        ensures { Tells (λ v. tt) (line_end (place_of self.old)) result (place_of self.new) }
    {
        if self.place < self.next {
            return Err(self.fault(Kind::BadNumber));
        }
        Ok(())
    }
}
