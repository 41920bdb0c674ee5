// Why a frame is not read or not written.
ghost use Rattle.std.specs.Prelude.{◌≡◌, Some};
ghost use Rattle.frame.specs.declared.fault.FrameFault.TheVariants.{Words};
ghost use Rattle.frame.specs.Refusals.{told, title};

use line::{Layer, Misfit, Place, Refusal};
use std::error::Error;
use std::fmt;

/// Why a frame is not read or not written, with the offset of the fault.
#[derive(Clone, Copy, Debug, PartialEq, Eq)]
pub enum FrameFault {
    /// The bytes end here, before the frame does.
    Cut(usize),
    /// The words make no message, from this one on.
    Words(Misfit),
    /// The buffer ends here, before the frame would.
    Buffer(usize),
}

impl From<Misfit> for FrameFault {
    ghost from_gives = { λ x y. y ≡ Words x };

    fn from(part: Misfit) -> FrameFault {
        FrameFault::Words(part)
    }
}

/// The layer, the number and the place of the refusal.
impl From<FrameFault> for Refusal {
    ghost from_gives = { λ fault refusal. refusal ≡ told fault };

    fn from(fault: FrameFault) -> Refusal {
        let (number, at) = match fault {
            FrameFault::Cut(at) => (18, at),
            FrameFault::Words(misfit) => return misfit.into(),
            FrameFault::Buffer(at) => (20, at),
        };
        Refusal {
            layer: Layer::Line,
            number,
            place: Place::Offset(at),
        }
    }
}

impl FrameFault {
    /// The refusal's name.
    pub fn name(self) -> &'static str
        ensures { result.now ≡ title self }
    {
        match self {
            FrameFault::Cut(_) => "CUT SHORT",
            FrameFault::Words(_) => "NO MESSAGE",
            FrameFault::Buffer(_) => "BUFFER",
        }
    }
}

impl fmt::Display for FrameFault {
    ghost output = { λ fault. Some (title fault) };

    fn fmt<W: fmt::Write>(&self, f: &mut fmt::Formatter<W>) -> fmt::Result {
        f.write_str(self.name())
    }
}

impl Error for FrameFault {}
