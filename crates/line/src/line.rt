// What a line of messages is.
ghost use Rattle.std.specs.Prelude.{◌≡◌, ℕ, ◌+◌, ◌-◌, ◌≤◌, map, length, Ok};
ghost use Rattle.std.specs.Result.{result_map_both};
ghost use Rattle.line.specs.Refusals.{told};
ghost use Rattle.line.specs.View.{msg_of};
ghost use Rattle.line.specs.Lists.{Lists, paired, total as sum, posting, counting, peeking, dropping, postings};

use crate::fault::LineFault;
use crate::message::Message;
use crate::pair::Pair;

/// A line: what carries messages between stations. Its meaning is, for each ordered pair of stations, the list of
/// messages waiting, oldest first. Whoever makes a line shows what each call answers, and every list after it.
pub trait Line: Sized {
    /// How many messages the line holds.
    const CAPACITY: usize;

    /// The same number, for contracts: the check shows for each kind of line that the two are equal.
    ghost CAPACITY: { ℕ };

    /// The messages waiting, for a sender and a receiver. Only the lists of pairs of stations count.
    ghost waiting: { Self → Lists };

    /// Puts a message last in its pair's list: NO PLACE where as many messages wait as the line holds.
    fn post(&mut self, message: Message) -> Result<(), LineFault>
        ensures { (result_map_both (λ x. x) told result, paired (waiting self.new)) ≡ posting CAPACITY (msg_of message) (paired (waiting self.old)) };

    /// How many messages of the pair wait: PAIR where there is no such pair.
    fn count(&self, pair: Pair) -> Result<usize, LineFault>
        ensures { result_map_both (λ x. x) told result ≡ counting pair.sender pair.receiver (paired (waiting self.now)) };

    /// How many messages wait, over all pairs.
    fn total(&self) -> usize
        ensures { result ≡ sum (paired (waiting self.now)) };

    /// A copy of the pair's oldest message: PAIR, then EMPTY.
    fn peek(&self, pair: Pair) -> Result<Message, LineFault>
        ensures { result_map_both msg_of told result ≡ peeking pair.sender pair.receiver (paired (waiting self.now)) };

    /// Takes the pair's oldest message off the line: PAIR, then EMPTY.
    fn drop_oldest(&mut self, pair: Pair) -> Result<(), LineFault>
        ensures { (result_map_both (λ x. x) told result, paired (waiting self.new)) ≡ dropping pair.sender pair.receiver (paired (waiting self.old)) };

    /// How many places are free.
    final fn free(&self) -> usize
        ensures { result ≡ CAPACITY - sum (paired (waiting self.now)) }
    {
        Self::CAPACITY.saturating_sub(self.total())
    }
}

/// Posts messages one after another, up to the first that is refused: none is while enough places are free.
#[tactic(auto, using(crate::proofs::Postings::turn, crate::proofs::Postings::stops, crate::proofs::Postings::ends, crate::proofs::Totals::enough))]
pub fn post_all<L: Line>(line: &mut L, messages: &[Message]) -> Result<(), LineFault>
    ensures exact { (result_map_both (λ x. x) told result, paired (L.Line.waiting line.new)) ≡ postings L.Line.CAPACITY (map msg_of messages.now) (Ok tt, paired (L.Line.waiting line.old)) }
    ensures enough { sum (paired (L.Line.waiting line.old)) + length messages.now ≤ L.Line.CAPACITY → (result ≡ Ok tt) × (sum (paired (L.Line.waiting line.new)) ≡ sum (paired (L.Line.waiting line.old)) + length messages.now) }
{
    for message in messages {
        line.post(*message)?;
    }
    Ok(())
}
