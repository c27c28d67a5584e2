// Numbers within bounds, lines with one number, and the lines of a section that are alike everywhere.
ghost use Rattle.std.specs.Prelude.{◌≡◌, ◌≤◌, [], length, IfOk};
ghost use Rattle.translator.specs.Description.{Text};
ghost use Rattle.translator.specs.Reads.{Tells, Finds};
ghost use Rattle.translator.specs.Readers.{place_of};
ghost use Rattle.translator.specs.Sections.{number_within, number_line, text_line, version_section, metric_section, layer_line, repeated, value_line, file_end};

use crate::cursor::Reader;
use task::{Fault, Kind, Layer};

// The least and the greatest number allowed, and what is wrong with a smaller and with a greater one.
#[derive(Clone, Copy)]
pub(crate) struct Bounds {
    pub(crate) low: u32,
    pub(crate) high: usize,
    pub(crate) below: Kind,
    pub(crate) above: Kind,
}

impl Bounds {
    // From 0 up to this number.
    pub(crate) fn up_to(high: usize, above: Kind) -> Bounds
        ensures { result ≡ record { low = 0; high = high; below = above; above = above } }
    {
        Bounds {
            low: 0,
            high,
            below: above,
            above,
        }
    }
}

impl<'a> Reader<'a> {
    // The next number of the line in hand, which must be within the bounds.
    pub(crate) fn number_within(&mut self, bounds: Bounds) -> Result<u32, Fault>
        ensures tells { Tells (λ v. v) (number_within bounds.low bounds.high bounds.below bounds.above (place_of self.old)) result (place_of self.new) }
        ensures within { IfOk result (λ n. (bounds.low ≤ n) × (n ≤ bounds.high)) }
    {
        let number = self.next_number()?;
        if number < bounds.low {
            return Err(self.fault(bounds.below));
        }
        if number as usize > bounds.high {
            return Err(self.fault(bounds.above));
        }
        Ok(number)
    }

    // A line with one number, which must be within the bounds.
    pub(crate) fn number_line(&mut self, bounds: Bounds) -> Result<u32, Fault>
        ensures tells { Tells (λ v. v) (number_line bounds.low bounds.high bounds.below bounds.above (place_of self.old)) result (place_of self.new) }
        ensures within { IfOk result (λ n. (bounds.low ≤ n) × (n ≤ bounds.high)) }
    {
        self.next_line()?;
        let number = self.number_within(bounds)?;
        self.line_end()?;
        Ok(number)
    }

    // A line of any bytes: the place of its first byte, and its length.
    pub(crate) fn text_line(&mut self) -> Result<(u32, u32), Fault>
        ensures { Finds (λ t v. (t.place ≡ v.0) × (length t.letters ≡ v.1)) (text_line (place_of self.old)) result (place_of self.new) }
    {
        let place = self.next as u32;
        let line = self.next_line()?;
        Ok((place, line.len() as u32))
    }

    // The version of the format, which must be 3.
    pub(crate) fn version(&mut self) -> Result<(), Fault>
        ensures { Tells (λ v. tt) (version_section (place_of self.old)) result (place_of self.new) }
    {
        self.keyword(b"begin_version")?;
        self.number_line(Bounds {
            low: 3,
            high: 3,
            below: Kind::BadNumber,
            above: Kind::BadNumber,
        })?;
        self.keyword(b"end_version")
    }

    // Whether every cost is read as 1.
    pub(crate) fn metric(&mut self) -> Result<bool, Fault>
        ensures { Tells (λ v. v) (metric_section (place_of self.old)) result (place_of self.new) }
    {
        self.keyword(b"begin_metric")?;
        let metric = self.number_line(Bounds::up_to(1, Kind::BadNumber))?;
        self.keyword(b"end_metric")?;
        Ok(metric == 0)
    }

    // The axiom layer of a variable, which must be -1.
    pub(crate) fn layer_line(&mut self) -> Result<(), Fault>
        ensures { Tells (λ v. tt) (layer_line (place_of self.old)) result (place_of self.new) }
    {
        self.next_line()?;
        let layer = self.next_signed()?;
        if layer >= 0 {
            return Err(self.fault(Kind::NotCarried));
        }
        self.line_end()
    }

    // The lines that name a variable's values.
    // By hand: a loop that is handed its step would have to say in its contract what each step leaves of the reader.
    pub(crate) fn value_lines(&mut self, count: u32) -> Result<(), Fault>
        ensures { Finds (λ t v. Unit {0}) (repeated value_line count [] (place_of self.old)) result (place_of self.new) }
    {
        for _ in 0..count {
            self.text_line()?;
        }
        Ok(())
    }

    // That the file ends here.
    pub(crate) fn file_end(&mut self) -> Result<(), Fault>
        ensures { Tells (λ v. tt) (file_end (place_of self.old)) result (place_of self.new) }
    {
        if self.next < self.bytes.len() {
            return Err(Layer::Reading.fault(Kind::BytesAfterEnd, self.line + 1));
        }
        Ok(())
    }
}
