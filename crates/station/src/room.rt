// Whether there is room on the line for what a step posts.
ghost use Rattle.std.specs.Prelude.{◌≡◌, if◌then◌else◌, Ok, Err};
ghost use Rattle.std.specs.Result.{result_map_both};
ghost use Rattle.line.specs.Lists.{paired};
ghost use Rattle.station.specs.Refusals.{told, refused};
ghost use Rattle.station.specs.Calls.{has_room};

use crate::fault::StationFault;
use line::{Line, Place};

/// How many places are free before a step: no step posts more messages.
pub const ROOM: usize = 16;

/// FULL unless so many places are free.
pub fn check_room<L: Line>(line: &L, place: Place) -> Result<(), StationFault>
    ensures { result_map_both (λ x. x) told result ≡ (if has_room L.Line.CAPACITY (paired (L.Line.waiting line.now)) then Ok tt else Err (refused 13 place)) }
{
    if line.free() >= ROOM {
        Ok(())
    } else {
        Err(StationFault::Full(place))
    }
}
