// Why a line refuses a call, and why parts make no message.
ghost use Rattle.std.specs.Prelude.{◌≡◌, Some};
ghost use Rattle.line.specs.Refusals.{told, misfits, title, misfit_title};

use crate::pair::Pair;
use crate::refusal::{Layer, Place, Refusal};
use std::error::Error;
use std::fmt;

// The impls below are written out: those that a library could derive have no contract.

/// Why a call of a line is refused, with the pair that it named.
#[derive(Clone, Copy, Debug, PartialEq, Eq)]
pub enum LineFault {
    /// The two numbers are not those of two different stations.
    Pair(Pair),
    /// No message of the pair waits.
    Empty(Pair),
    /// As many messages wait as the line holds.
    NoPlace(Pair),
}

/// The layer, the number and the place of the refusal.
impl From<LineFault> for Refusal {
    ghost from_gives = { λ fault refusal. refusal ≡ told fault };

    fn from(fault: LineFault) -> Refusal {
        let (number, pair) = match fault {
            LineFault::Pair(pair) => (14, pair),
            LineFault::Empty(pair) => (15, pair),
            LineFault::NoPlace(pair) => (16, pair),
        };
        Refusal {
            layer: Layer::Line,
            number,
            place: Place::Pair(pair),
        }
    }
}

impl LineFault {
    /// The refusal's name.
    pub fn name(self) -> &'static str
        ensures { result.now ≡ title self }
    {
        match self {
            LineFault::Pair(_) => "PAIR",
            LineFault::Empty(_) => "EMPTY",
            LineFault::NoPlace(_) => "NO PLACE",
        }
    }
}

impl fmt::Display for LineFault {
    ghost output = { λ fault. Some (title fault) };

    fn fmt<W: fmt::Write>(&self, f: &mut fmt::Formatter<W>) -> fmt::Result {
        f.write_str(self.name())
    }
}

impl Error for LineFault {}

/// The first part of a message, in the order of a frame, that fits no message together with the parts before it.
#[derive(Clone, Copy, Debug, PartialEq, Eq)]
pub enum Misfit {
    Receiver,
    Kind,
    Page,
    Sender,
    Length,
}

/// The layer, the number and the place of the refusal: the offset that the part has in a frame.
impl From<Misfit> for Refusal {
    ghost from_gives = { λ part refusal. refusal ≡ misfits part };

    fn from(part: Misfit) -> Refusal {
        let offset = match part {
            Misfit::Receiver => 0,
            Misfit::Kind => 4,
            Misfit::Page => 8,
            Misfit::Sender => 12,
            Misfit::Length => 16,
        };
        Refusal {
            layer: Layer::Line,
            number: 19,
            place: Place::Offset(offset),
        }
    }
}

/// The refusal's name, which is the same for every part.
impl fmt::Display for Misfit {
    ghost output = { λ part. Some (misfit_title part) };

    fn fmt<W: fmt::Write>(&self, f: &mut fmt::Formatter<W>) -> fmt::Result {
        f.write_str("NO MESSAGE")
    }
}

impl Error for Misfit {}
