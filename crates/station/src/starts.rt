// Starting to read or to write a page.
ghost use Rattle.std.specs.Prelude.{◌≡◌, IfOk, if◌then◌else◌};
ghost use Rattle.std.specs.Result.{result_map_both};
ghost use Rattle.line.specs.Lists.{paired};
ghost use Rattle.notes.specs.Notes.{is_open};
ghost use Rattle.notes.specs.View.{notes_of};
ghost use Rattle.station.specs.Refusals.{told};
ghost use Rattle.station.specs.Calls.{posted_by, starting};
ghost use Rattle.steps.specs.Steps.{Counted};
ghost use Rattle.steps.specs.Soundness.{Sound};

use crate::fault::StationFault;
use crate::room::check_room;
use line::{Line, Place};
use notes::{Access, Row, Standing};
use steps::{Away, Site, Text, enqueue};

/// How a start ended, with how many messages it posted.
#[derive(Clone, Copy)]
pub enum Started {
    /// The page is open.
    Opened(usize),
    /// The station waits for it.
    Waits(usize),
}

/// What a start answers, by how the station stands after it.
// Not a `From`: it is made of two values.
fn began(standing: Standing, posted: usize) -> Started
    ensures { result ≡ (if is_open standing then Started.Opened posted else Started.Waits posted) }
{
    match standing {
        Standing::Open(_) => Started::Opened(posted),
        _ => Started::Waits(posted),
    }
}

/// Starts to read or to write: STANDING unless IDLE, then FULL.
pub fn start<L: Line>(
    row: &mut Row,
    site: Site,
    access: Access,
    text: &Text,
    line: &mut L,
) -> Result<Started, StationFault>
    requires sound { site.station ≡ site.home → Sound site.home (notes_of row.old) }
    ensures exact { (result_map_both (λ x. x) told result, notes_of row.new, text.now, paired (L.Line.waiting line.new)) ≡ starting site.station site.home site.page L.Line.CAPACITY access (notes_of row.old) text.now (paired (L.Line.waiting line.old)) }
    ensures counted { IfOk result (λ x. Counted (paired (L.Line.waiting line.old)) (paired (L.Line.waiting line.new)) (posted_by x)) }
    ensures sound { site.station ≡ site.home → Sound site.home (notes_of row.new) }
{
    if row.standing != Standing::Idle {
        return Err(StationFault::Standing(site.row()));
    }
    check_room(line, Place::Row(site.row()))?;
    let posted = if site.station == site.home {
        row.standing = Standing::Waiting(access);
        enqueue(row, site, site.home, access, text, line)
    } else {
        Away { site }.start(row, access, text.as_bytes(), line)
    };
    Ok(began(row.standing, posted))
}
