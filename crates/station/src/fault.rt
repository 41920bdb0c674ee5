// Why a station refuses a call or a delivery.
ghost use Rattle.std.specs.Prelude.{◌≡◌, Some};
ghost use Rattle.station.specs.Refusals.{told, title};

use line::{Layer, Pair, Place, Refusal, RowId};
use std::error::Error;
use std::fmt;

/// Why a call at a station, or a delivery to it, is refused: with the station and the page, or the sender and the
/// receiver.
#[derive(Clone, Copy, Debug, PartialEq, Eq)]
pub enum StationFault {
    /// The station does not stand to the page as the call needs it.
    Standing(RowId),
    /// No bytes, or bytes past the page's length.
    Range(RowId),
    /// The station has no copy that could go back.
    NoCopy(RowId),
    /// A message that the protocol does not send there and then.
    Strange(Pair),
    /// Fewer than sixteen places are free on the line.
    Full(Place),
}

/// The layer, the number and the place of the refusal.
impl From<StationFault> for Refusal {
    ghost from_gives = { λ fault refusal. refusal ≡ told fault };

    fn from(fault: StationFault) -> Refusal {
        let (number, place) = match fault {
            StationFault::Standing(row) => (9, Place::Row(row)),
            StationFault::Range(row) => (10, Place::Row(row)),
            StationFault::NoCopy(row) => (11, Place::Row(row)),
            StationFault::Strange(pair) => (12, Place::Pair(pair)),
            StationFault::Full(place) => (13, place),
        };
        Refusal {
            layer: Layer::House,
            number,
            place,
        }
    }
}

impl StationFault {
    /// The refusal's name.
    pub fn name(self) -> &'static str
        ensures { result.now ≡ title self }
    {
        match self {
            StationFault::Standing(_) => "STANDING",
            StationFault::Range(_) => "RANGE",
            StationFault::NoCopy(_) => "NO COPY",
            StationFault::Strange(_) => "STRANGE",
            StationFault::Full(_) => "FULL",
        }
    }
}

impl fmt::Display for StationFault {
    ghost output = { λ fault. Some (title fault) };

    fn fmt<W: fmt::Write>(&self, f: &mut fmt::Formatter<W>) -> fmt::Result {
        f.write_str(self.name())
    }
}

impl Error for StationFault {}
