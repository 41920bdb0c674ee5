// Reading one part of a plan after another.
ghost use Rattle.std.specs.Prelude.{◌≡◌, Ok, nat_lt};
ghost use Rattle.std.specs.Result.{result_map_both};
ghost use Rattle.plan.specs.Refusals.{told, as_told};
ghost use Rattle.plan.specs.Plans.{and_then, passing, between, new_letter, text_at, sheet_at, end_at};
ghost use Rattle.plan.specs.Reading.{reads, reads_on, ReadsPassing};
ghost use Rattle.plan.specs.View.{sheet_of};

use crate::fault::PlanFault;
use crate::plan::Page;
use std::marker::Model;

/// The plan's bytes, and the offset of the next one, which a fault reports: so it is kept, and not only the bytes left.
#[derive(Drop)]
pub struct Reader<'a> {
    bytes: &'a [u8],
    offset: usize,
}

impl<'a> Model for Reader<'a> {
    ghost use Rattle.std.specs.Prelude.{◌≤◌, length};
    ghost use Rattle.plan.specs.Reading.{Reading};

    ghost Value = { Reading };

    ghost view = { λ r. record { bytes = r.bytes.now; offset = r.offset } };

    ghost invariant = { λ r. r.offset ≤ length r.bytes.now };
}

impl<'a> Reader<'a> {
    /// A reader at the first byte.
    pub fn new(bytes: &'a [u8]) -> Reader<'a>
        ensures { result ≡ record { bytes = bytes.now; offset = 0 } }
    {
        Reader { bytes, offset: 0 }
    }

    /// The next byte, if it passes: SHORT, then VALUE.
    fn next<F: Fn(u8) -> bool>(&mut self, passes: F) -> Result<u8, PlanFault>
        requires { F.IsAlwaysCallable passes }
        ensures { ReadsPassing (F.post passes) self.old (as_told result, self.new) }
    {
        let Some(&byte) = self.bytes.get(self.offset) else {
            return Err(PlanFault::Short(self.bytes.len()));
        };
        if !passes(byte) {
            return Err(PlanFault::Value(self.offset));
        }
        self.offset += 1;
        Ok(byte)
    }

    /// A number from `low` to `high`.
    pub fn number(&mut self, low: u8, high: u8) -> Result<u8, PlanFault>
        ensures { (as_told result, self.new) ≡ reads (passing (between low high)) 1 self.old }
    {
        self.next(|number| (low..=high).contains(&number))
    }

    /// A letter that is not among those seen.
    pub fn letter(&mut self, seen: &[u8]) -> Result<u8, PlanFault>
        ensures { (as_told result, self.new) ≡ reads (passing (new_letter seen.now)) 1 self.old }
    {
        self.next(|letter| letter.is_ascii_uppercase() && !seen.contains(&letter))
    }

    /// The number of a home in a house of so many stations.
    fn home(&mut self, stations: u8) -> Result<u8, PlanFault>
        ensures { (as_told result, self.new) ≡ reads (passing (λ b. nat_lt b stations)) 1 self.old }
    {
        self.next(|home| home < stations)
    }

    /// The offset of a text of this length: SHORT.
    fn text(&mut self, length: u8) -> Result<usize, PlanFault>
        ensures { (as_told result, self.new)
            ≡ reads (λ bs i. and_then (text_at bs i length) (λ _. Ok i)) length self.old }
    {
        let length = usize::from(length);
        if self.bytes.len() - self.offset < length {
            return Err(PlanFault::Short(self.bytes.len()));
        }
        let at = self.offset;
        self.offset += length;
        Ok(at)
    }

    /// A page of a house of so many stations: SHORT or VALUE, the leftmost.
    #[tactic(auto, unfolding(crate::specs::Plans::sheet_at))]
    pub fn page(&mut self, stations: u8) -> Result<Page, PlanFault>
        ensures { (result_map_both (λ g. (sheet_of self.old.bytes g, self.new.offset)) told result, self.new.bytes)
            ≡ reads_on (sheet_at stations) self.old }
    {
        let home = self.home(stations)?;
        let length = self.number(1, 64)?;
        let text = self.text(length)?;
        Ok(Page { home, length, text })
    }

    /// Nothing is left over: LONG.
    pub fn end(&self) -> Result<(), PlanFault>
        ensures { as_told result ≡ end_at self.now.bytes self.now.offset }
    {
        if self.offset < self.bytes.len() {
            return Err(PlanFault::Long(self.offset));
        }
        Ok(())
    }
}
