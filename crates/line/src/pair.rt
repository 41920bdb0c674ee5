// Who sends a message, and to whom.
ghost use Rattle.std.specs.Prelude.{◌≡◌};
ghost use Rattle.std.specs.Result.{result_map_both};
ghost use Rattle.line.specs.Refusals.{told};
ghost use Rattle.line.specs.Lists.{pairing};

use crate::fault::LineFault;

/// A sender and a receiver, as a call names them: any two numbers.
#[derive(Clone, Copy, Debug, PartialEq, Eq)]
pub struct Pair {
    pub sender: u8,
    pub receiver: u8,
}

impl Pair {
    /// PAIR unless these are the numbers of two different stations.
    pub fn check(self) -> Result<(), LineFault>
        ensures { result_map_both (λ x. x) told result ≡ pairing self.sender self.receiver }
    {
        let Pair { sender, receiver } = self;
        if sender < 8 && receiver < 8 && sender != receiver {
            Ok(())
        } else {
            Err(LineFault::Pair(self))
        }
    }
}
