// Posting what a step says.
ghost use Rattle.std.specs.Prelude.{◌≡◌, ◌+◌, ◌<◌};
ghost use Rattle.line.specs.Messages.{msg, Fits as Makes};
ghost use Rattle.line.specs.Lists.{paired, posted, total as sum};

use line::{Kind, Line, Message, Pair};

/// Posts a message for which there is a place.
// That places are free stays a clause of each step: posting uses them up, so it is no fact that lasts.
pub fn send<L: Line>(line: &mut L, pair: Pair, page: u8, kind: Kind, text: &[u8])
    requires makes { Makes (msg pair.sender pair.receiver page kind text.now) }
    requires free { sum (paired (L.Line.waiting line.old)) < L.Line.CAPACITY }
    ensures lists { paired (L.Line.waiting line.new) ≡ posted (msg pair.sender pair.receiver page kind text.now) (paired (L.Line.waiting line.old)) }
    ensures added { sum (paired (L.Line.waiting line.new)) ≡ sum (paired (L.Line.waiting line.old)) + 1 }
{
    let message = Message::new(pair, page, kind, text).unwrap();
    line.post(message).unwrap();
}
