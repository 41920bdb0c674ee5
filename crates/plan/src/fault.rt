// Why a plan is not read.
ghost use Rattle.std.specs.Prelude.{◌≡◌, Some};
ghost use Rattle.plan.specs.Refusals.{told, title};

use line::{Layer, Place, Refusal};
use std::error::Error;
use std::fmt;

/// Why a plan is not read, with the offset of the byte at fault.
#[derive(Clone, Copy, Debug, PartialEq, Eq)]
pub enum PlanFault {
    /// This byte is missing.
    Short(usize),
    /// This byte has a wrong value.
    Value(usize),
    /// This byte is one too many.
    Long(usize),
}

/// The layer, the number and the place of the refusal.
impl From<PlanFault> for Refusal {
    ghost from_gives = { λ x y. y ≡ told x };

    fn from(fault: PlanFault) -> Refusal {
        let (number, at) = match fault {
            PlanFault::Short(at) => (1, at),
            PlanFault::Value(at) => (2, at),
            PlanFault::Long(at) => (3, at),
        };
        Refusal {
            layer: Layer::Plan,
            number,
            place: Place::Offset(at),
        }
    }
}

impl PlanFault {
    /// The refusal's name.
    pub fn name(self) -> &'static str
        ensures { result.now ≡ title self }
    {
        match self {
            PlanFault::Short(_) => "SHORT",
            PlanFault::Value(_) => "VALUE",
            PlanFault::Long(_) => "LONG",
        }
    }
}

impl fmt::Display for PlanFault {
    ghost output = { λ x. Some (title x) };

    fn fmt<W: fmt::Write>(&self, f: &mut fmt::Formatter<W>) -> fmt::Result {
        f.write_str(self.name())
    }
}

impl Error for PlanFault {}
