// What a party line does.
ghost use Rattle.std.specs.Prelude.{◌≡◌, IfOk, position};
ghost use Rattle.std.specs.Result.{result_map_both};
ghost use Rattle.line.specs.Lists.{empty, paired};
ghost use Rattle.line.specs.Refusals.{told};
ghost use Rattle.lines.specs.Logs.{goes, of, searched};
ghost use Rattle.lines.specs.Held.{log};

use crate::party::PartyLine;
use line::{Line, LineFault, Message, Pair};
use std::alloc::{AllocError, Global};

impl PartyLine {
    /// An empty party line, with the memory for all that it will hold.
    #[tactic(auto, using(crate::proofs::Logs::none))]
    pub fn new(heap: Global) -> Result<PartyLine, AllocError>
        ensures { IfOk result (λ p. paired (of (log p)) ≡ empty) }
    {
        let messages = Vec::with_capacity(heap, PartyLine::CAPACITY)?;
        Ok(PartyLine { messages })
    }

    /// The place of the pair's oldest message: PAIR, then EMPTY.
    fn find(&self, pair: Pair) -> Result<usize, LineFault>
        ensures { result_map_both (λ i. i) told result ≡ searched pair.sender pair.receiver (position (goes pair.sender pair.receiver) (log self.now)) }
    {
        pair.check()?;
        self.messages
            .iter()
            .position(|message| message.pair() == pair)
            .ok_or(LineFault::Empty(pair))
    }
}

impl Line for PartyLine {
    const CAPACITY: usize = 576;

    ghost CAPACITY = { 576 };

    ghost waiting = { λ p. of (log p) };

    #[tactic(auto, using(crate::proofs::Store::waits))]
    fn post(&mut self, message: Message) -> Result<(), LineFault> {
        // Both lines ask this. A function of the trait for it gets no proof, since a method of this block would lead back
        // to it.
        if self.total() >= Self::CAPACITY {
            return Err(LineFault::NoPlace(message.pair()));
        }
        self.messages.push_reserved(message);
        Ok(())
    }

    fn count(&self, pair: Pair) -> Result<usize, LineFault> {
        pair.check()?;
        let waiting = self
            .messages
            .iter()
            .filter(|message| message.pair() == pair);
        Ok(waiting.count())
    }

    #[tactic(auto, using(crate::proofs::Store::waits))]
    fn total(&self) -> usize {
        self.messages.len()
    }

    fn peek(&self, pair: Pair) -> Result<Message, LineFault> {
        let oldest = self.find(pair)?;
        Ok(self.messages[oldest])
    }

    fn drop_oldest(&mut self, pair: Pair) -> Result<(), LineFault> {
        let oldest = self.find(pair)?;
        self.messages.remove(oldest);
        Ok(())
    }
}
