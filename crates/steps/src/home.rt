// The steps of a page's home.
ghost use Rattle.std.specs.Prelude.{◌≡◌, ◌+◌, ◌<◌, ◌≤◌, true, false, length};
ghost use Rattle.line.specs.Lists.{paired, total as sum};
ghost use Rattle.notes.specs.Notes.{is_waiting};
ghost use Rattle.notes.specs.Queues.{queued};
ghost use Rattle.notes.specs.Sets.{isin};
ghost use Rattle.notes.specs.View.{notes_of};
ghost use Rattle.steps.specs.Steps.{done};
ghost use Rattle.steps.specs.Serving.{serve as serves, enqueued, returned};
ghost use Rattle.steps.specs.Steps.{Counted};
ghost use Rattle.steps.specs.Soundness.{Sound};

use crate::serve::serve_queue;
use crate::site::Site;
use crate::text::Text;
use line::Line;
use notes::{Access, Entry, Mode, Row};

/// A station joins the queue, and the home serves the page.
// That the home's row is sound stays a clause of each step: a row's fields are open, and away from home it need not be
// sound, so a fact in its type would ask more of whoever writes one.
pub fn enqueue<L: Line>(
    row: &mut Row,
    site: Site,
    station: u8,
    access: Access,
    text: &Text,
    line: &mut L,
) -> usize
    requires sound { Sound site.home (notes_of row.old) }
    requires station { station < 8 }
    requires new { queued station (notes_of row.old).home.queue ≡ false }
    requires own { station ≡ site.home → is_waiting row.old.standing ≡ true }
    requires free { sum (paired (L.Line.waiting line.old)) + 16 ≤ L.Line.CAPACITY }
    ensures step { (notes_of row.new, text.now, paired (L.Line.waiting line.new)) ≡ done (serves site.home site.page text.now (enqueued station access (notes_of row.old))) (paired (L.Line.waiting line.old)) }
    ensures posted { result ≡ length (serves site.home site.page text.now (enqueued station access (notes_of row.old))).posts }
    ensures counted { Counted (paired (L.Line.waiting line.old)) (paired (L.Line.waiting line.new)) result }
    ensures sound { Sound site.home (notes_of row.new) }
{
    row.desk.queue.push(Entry { station, access });
    serve_queue(row, site, text, line)
}

/// A holder's copy came back, and the home serves the page.
pub fn take_back<L: Line>(
    row: &mut Row,
    site: Site,
    station: u8,
    text: &Text,
    line: &mut L,
) -> usize
    requires sound { Sound site.home (notes_of row.old) }
    requires station { station < 8 }
    requires holder { isin station (notes_of row.old).home.holders ≡ true }
    requires free { sum (paired (L.Line.waiting line.old)) + 16 ≤ L.Line.CAPACITY }
    ensures step { (notes_of row.new, text.now, paired (L.Line.waiting line.new)) ≡ done (serves site.home site.page text.now (returned station (notes_of row.old))) (paired (L.Line.waiting line.old)) }
    ensures posted { result ≡ length (serves site.home site.page text.now (returned station (notes_of row.old))).posts }
    ensures counted { Counted (paired (L.Line.waiting line.old)) (paired (L.Line.waiting line.new)) result }
    ensures sound { Sound site.home (notes_of row.new) }
{
    let left = row.desk.holders.without(station);
    row.desk.holders = left;
    row.desk.awaited = row.desk.awaited.without(station);
    if left.is_empty() {
        row.desk.mode = Mode::Own;
    }
    serve_queue(row, site, text, line)
}
