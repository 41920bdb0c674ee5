// The pair that a message crosses.
ghost use Rattle.std.specs.Prelude.{◌≡◌};
ghost use Rattle.line.specs.Refusals.{pair_of};

use crate::incoming::Incoming;
use line::Pair;

impl Incoming {
    /// The sender and the receiver.
    pub fn pair(self) -> Pair
        ensures { result ≡ pair_of self.sender self.site.station }
    {
        Pair {
            sender: self.sender,
            receiver: self.site.station,
        }
    }
}
