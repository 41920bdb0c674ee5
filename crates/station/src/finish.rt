// Ending, and giving a copy back unasked.
ghost use Rattle.std.specs.Prelude.{◌≡◌, IfOk};
ghost use Rattle.std.specs.Result.{result_map_both};
ghost use Rattle.line.specs.Lists.{paired};
ghost use Rattle.notes.specs.View.{notes_of};
ghost use Rattle.station.specs.Refusals.{told};
ghost use Rattle.station.specs.Calls.{ending, flushing};
ghost use Rattle.steps.specs.Steps.{Counted};
ghost use Rattle.steps.specs.Soundness.{Sound};

use crate::fault::StationFault;
use crate::room::check_room;
use line::{Kind, Line, Place};
use notes::{Row, Standing};
use steps::{Away, Site, Text, serve_queue};

/// Ends reading or writing, and tells how many messages that takes: STANDING unless the page is open, then FULL.
pub fn end<L: Line>(
    row: &mut Row,
    site: Site,
    text: &Text,
    line: &mut L,
) -> Result<usize, StationFault>
    requires sound { site.station ≡ site.home → Sound site.home (notes_of row.old) }
    ensures exact { (result_map_both (λ x. x) told result, notes_of row.new, text.now, paired (L.Line.waiting line.new)) ≡ ending site.station site.home site.page L.Line.CAPACITY (notes_of row.old) text.now (paired (L.Line.waiting line.old)) }
    ensures counted { IfOk result (Counted (paired (L.Line.waiting line.old)) (paired (L.Line.waiting line.new))) }
    ensures sound { site.station ≡ site.home → Sound site.home (notes_of row.new) }
{
    let Standing::Open(_) = row.standing else {
        return Err(StationFault::Standing(site.row()));
    };
    check_room(line, Place::Row(site.row()))?;
    if site.station == site.home {
        row.standing = Standing::Idle;
        Ok(serve_queue(row, site, text, line))
    } else {
        Ok(Away { site }.end(row, text, line))
    }
}

/// Gives the copy back unasked, and tells how many messages that takes: STANDING unless IDLE, then NO COPY at home or
/// without one, then FULL.
pub fn flush<L: Line>(
    row: &mut Row,
    site: Site,
    text: &Text,
    line: &mut L,
) -> Result<usize, StationFault>
    ensures exact { (result_map_both (λ x. x) told result, notes_of row.new, text.now, paired (L.Line.waiting line.new)) ≡ flushing site.station site.home site.page L.Line.CAPACITY (notes_of row.old) text.now (paired (L.Line.waiting line.old)) }
    ensures counted { IfOk result (Counted (paired (L.Line.waiting line.old)) (paired (L.Line.waiting line.new))) }
{
    if row.standing != Standing::Idle {
        return Err(StationFault::Standing(site.row()));
    }
    if site.station == site.home || row.copy.is_none() {
        return Err(StationFault::NoCopy(site.row()));
    }
    check_room(line, Place::Row(site.row()))?;
    Away { site }.give_back(row, Kind::FlushWithText, Kind::Flush, text, line);
    Ok(1)
}
