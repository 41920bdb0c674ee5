// What a frame line does.
ghost use Rattle.std.specs.Prelude.{◌≡◌, ◌≤◌, length, find, IfOk};
ghost use Rattle.std.specs.Result.{result_map_both};
ghost use Rattle.line.specs.Lists.{empty, paired};
ghost use Rattle.line.specs.Refusals.{told};
ghost use Rattle.lines.specs.Logs.{goes, of, searched};
ghost use Rattle.lines.specs.Framed.{framed};
ghost use Rattle.lines.specs.Kept.{log};
ghost use Rattle.lines.specs.Slots.{spot, placed, left};

use crate::framed::FrameLine;
use crate::framed::slots::{Slot, Slots};
use line::{Line, LineFault, Message, Pair};
use std::alloc::{AllocError, Global};

/// The bytes of a frame with the longest text.
const LONGEST: usize = frame::HEADER + 64;

/// The bytes of as many such frames as the line holds.
const BYTES: usize = FrameLine::CAPACITY * LONGEST;

impl FrameLine {
    /// An empty frame line, with the memory for all that it will hold.
    #[tactic(auto, using(crate::proofs::Logs::none), unfolding(crate::specs::Framed::parsed))]
    pub fn new(heap: Global) -> Result<FrameLine, AllocError>
        ensures { IfOk result (λ f. paired (of (log f)) ≡ empty) }
    {
        let frames = Vec::with_capacity(heap, BYTES)?;
        Ok(FrameLine { frames, count: 0 })
    }

    /// The frames as they lie, in order of posting.
    #[tactic(auto, using(crate::proofs::Framing::lie, crate::proofs::Framing::within))]
    pub fn as_bytes(&self) -> &[u8]
        ensures exact { result.now ≡ framed (log self.now) }
        ensures within { length result.now ≤ 21504 }
    {
        self.frames.as_slice()
    }

    /// The messages with the places of their frames, in order of posting.
    #[tactic(auto, using(crate::proofs::Slots::whole, crate::proofs::Slots::few))]
    fn slots(&self) -> Slots<'_>
        ensures each { left result ≡ placed 0 (log self.now) }
        ensures few { length (left result) ≤ 256 }
    {
        Slots {
            bytes: self.as_bytes(),
            at: 0,
        }
    }

    /// The pair's oldest message, and where its frame lies: PAIR, then EMPTY.
    fn find(&self, pair: Pair) -> Result<Slot, LineFault>
        ensures { result_map_both spot told result ≡ searched pair.sender pair.receiver (find (λ p. goes pair.sender pair.receiver p.message) (placed 0 (log self.now))) }
    {
        pair.check()?;
        self.slots()
            .find(|slot| slot.message.pair() == pair)
            .ok_or(LineFault::Empty(pair))
    }
}

impl Line for FrameLine {
    const CAPACITY: usize = 256;

    ghost CAPACITY = { 256 };

    ghost waiting = { λ f. of (log f) };

    fn post(&mut self, message: Message) -> Result<(), LineFault> {
        // As the party line asks, and for the reason given there.
        if self.total() >= Self::CAPACITY {
            return Err(LineFault::NoPlace(message.pair()));
        }
        // Fixed memory: a frame is written into a slice, and no call of a line allocates.
        let mut frame = [0; LONGEST];
        let size = frame::write(&message, &mut frame).unwrap();
        self.frames.extend_from_slice(&frame[..size]).unwrap();
        self.count += 1;
        Ok(())
    }

    fn count(&self, pair: Pair) -> Result<usize, LineFault> {
        pair.check()?;
        let waiting = self.slots().filter(|slot| slot.message.pair() == pair);
        Ok(waiting.count())
    }

    #[tactic(auto, using(crate::proofs::Framing::waits))]
    fn total(&self) -> usize {
        self.count
    }

    fn peek(&self, pair: Pair) -> Result<Message, LineFault> {
        let oldest = self.find(pair)?;
        Ok(oldest.message)
    }

    fn drop_oldest(&mut self, pair: Pair) -> Result<(), LineFault> {
        let Slot { bytes, .. } = self.find(pair)?;
        // Not `drain`: it turns the frame and all bytes behind it through memory of its own, at many times the cost.
        let left = self.frames.len() - (bytes.end - bytes.start);
        self.frames.copy_within(bytes.end.., bytes.start);
        self.frames.truncate(left);
        self.count -= 1;
        Ok(())
    }
}
