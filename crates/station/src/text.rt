// Writing into a page, and reading it.
ghost use Rattle.std.specs.Prelude.{◌≡◌, length};
ghost use Rattle.std.specs.Result.{result_map_both};
ghost use Rattle.notes.specs.View.{notes_of};
ghost use Rattle.station.specs.Refusals.{told};
ghost use Rattle.station.specs.Calls.{putting, looking};

use crate::fault::StationFault;
use notes::{Access, Row, Standing};
use steps::Site;

/// Lays bytes into the page from an offset on: STANDING unless WRITING, then RANGE for no bytes or past the page's
/// length.
pub fn put(
    row: &mut Row,
    site: Site,
    offset: usize,
    bytes: &[u8],
    text: &mut [u8],
) -> Result<(), StationFault>
    ensures { (result_map_both (λ x. x) told result, notes_of row.new, text.new) ≡ putting site.station site.home site.page offset bytes.now (notes_of row.old) text.old }
{
    if row.standing != Standing::Open(Access::Write) {
        return Err(StationFault::Standing(site.row()));
    }
    if bytes.is_empty() || offset > text.len() || bytes.len() > text.len() - offset {
        return Err(StationFault::Range(site.row()));
    }
    text[offset..offset + bytes.len()].copy_from_slice(bytes);
    if site.station != site.home {
        row.changed = true;
    }
    Ok(())
}

/// The page's bytes themselves: STANDING unless the page is open.
pub fn look<'a>(row: &Row, site: Site, text: &'a [u8]) -> Result<&'a [u8], StationFault>
    ensures { result_map_both (λ x. x.now) told result ≡ looking site.station site.home site.page (notes_of row.now) text.now }
{
    let Standing::Open(_) = row.standing else {
        return Err(StationFault::Standing(site.row()));
    };
    Ok(text)
}
