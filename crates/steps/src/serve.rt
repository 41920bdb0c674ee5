// Serving a page at its home.
ghost use Rattle.std.specs.Prelude.{◌≡◌, ◌+◌, ◌<◌, ◌≤◌, false, length};
ghost use Rattle.line.specs.Lists.{paired, sent, total as sum};
ghost use Rattle.notes.specs.Queues.{entries};
ghost use Rattle.notes.specs.Sets.{isin, members};
ghost use Rattle.notes.specs.View.{notes_of};
ghost use Rattle.steps.specs.Steps.{done};
ghost use Rattle.steps.specs.Serving.{verdict, recalls, granted, serve as serves};
ghost use Rattle.steps.specs.Steps.{Counted};
ghost use Rattle.steps.specs.Soundness.{Sound};

use crate::post::send;
use crate::site::Site;
use crate::text::Text;
use line::{Kind, Line};
use notes::{Access, Entry, Mode, Row, Standing, StationSet};

/// What becomes of the first entry of a queue.
#[derive(Clone, Copy)]
pub enum Verdict {
    /// It gets the page.
    Grant,
    /// Copies are called back first.
    Recall(StationSet),
    /// It stays until the home has ended.
    Wait,
}

/// What becomes of an entry when its turn comes.
fn judge(row: &Row, entry: Entry) -> Verdict
    requires { entry.station < 8 }
    ensures { result ≡ verdict entry.access entry.station (notes_of row.now).home.mode (notes_of row.now).home.holders row.now.standing }
{
    match (entry.access, row.desk.mode) {
        (Access::Read, Mode::Away) => Verdict::Recall(row.desk.holders),
        (Access::Read, _) => match row.standing {
            Standing::Open(Access::Write) => Verdict::Wait,
            _ => Verdict::Grant,
        },
        (Access::Write, _) => {
            let others = row.desk.holders.without(entry.station);
            match row.standing {
                _ if !others.is_empty() => Verdict::Recall(others),
                Standing::Open(_) => Verdict::Wait,
                _ => Verdict::Grant,
            }
        }
    }
}

/// Calls back the copies of these stations, the lowest first, and tells how many.
fn recall<L: Line>(stations: StationSet, site: Site, line: &mut L) -> usize
    requires away { isin site.home stations.bits ≡ false }
    requires free { sum (paired (L.Line.waiting line.old)) + length (members stations.bits) ≤ L.Line.CAPACITY }
    ensures lists { paired (L.Line.waiting line.new) ≡ sent (recalls site.home site.page stations.bits) (paired (L.Line.waiting line.old)) }
    ensures posted { result ≡ length (members stations.bits) }
    ensures added { sum (paired (L.Line.waiting line.new)) ≡ sum (paired (L.Line.waiting line.old)) + result }
{
    for station in stations {
        send(
            line,
            site.from_home(station),
            site.page,
            Kind::Invalidate,
            &[],
        );
    }
    stations.count() as usize
}

/// Gives the page to the first entry of the queue, and tells how many messages that takes.
fn grant<L: Line>(row: &mut Row, site: Site, entry: Entry, text: &Text, line: &mut L) -> usize
    requires station { entry.station < 8 }
    requires queue { 0 < length (entries row.old.desk.queue.slots) }
    requires free { sum (paired (L.Line.waiting line.old)) + length (granted site.home site.page text.now entry (notes_of row.old)).posts ≤ L.Line.CAPACITY }
    ensures step { (notes_of row.new, text.now, paired (L.Line.waiting line.new)) ≡ done (granted site.home site.page text.now entry (notes_of row.old)) (paired (L.Line.waiting line.old)) }
    ensures posted { result ≡ length (granted site.home site.page text.now entry (notes_of row.old)).posts }
    ensures added { sum (paired (L.Line.waiting line.new)) ≡ sum (paired (L.Line.waiting line.old)) + result }
{
    row.desk.queue.pop();
    if entry.station == site.home {
        row.standing = Standing::Open(entry.access);
        return 0;
    }
    let (kind, sent) = match entry.access {
        Access::Read => (Kind::SharedCopy, text.as_bytes()),
        Access::Write if row.desk.holders.has(entry.station) => (Kind::ModifyGrant, [].as_slice()),
        Access::Write => (Kind::ExclusiveCopy, text.as_bytes()),
    };
    send(line, site.from_home(entry.station), site.page, kind, sent);
    match entry.access {
        Access::Read => {
            row.desk.mode = Mode::Shared;
            row.desk.holders = row.desk.holders.with(entry.station);
        }
        Access::Write => {
            row.desk.mode = Mode::Away;
            row.desk.holders = StationSet::only(entry.station);
        }
    }
    1
}

/// Serves the page: nothing while a station is awaited; else the first entry of the queue, and on until one is not
/// granted. Tells how many messages that takes.
pub fn serve_queue<L: Line>(row: &mut Row, site: Site, text: &Text, line: &mut L) -> usize
    requires sound { Sound site.home (notes_of row.old) }
    requires free { sum (paired (L.Line.waiting line.old)) + 16 ≤ L.Line.CAPACITY }
    ensures step { (notes_of row.new, text.now, paired (L.Line.waiting line.new)) ≡ done (serves site.home site.page text.now (notes_of row.old)) (paired (L.Line.waiting line.old)) }
    ensures posted { result ≡ length (serves site.home site.page text.now (notes_of row.old)).posts }
    ensures counted { Counted (paired (L.Line.waiting line.old)) (paired (L.Line.waiting line.new)) result }
    ensures sound { Sound site.home (notes_of row.new) }
{
    let mut posted = 0;
    while row.desk.awaited.is_empty() {
        let Some(entry) = row.desk.queue.first() else {
            break;
        };
        match judge(row, entry) {
            Verdict::Grant => posted += grant(row, site, entry, text, line),
            Verdict::Recall(stations) => {
                row.desk.awaited = stations;
                posted += recall(stations, site, line);
                break;
            }
            Verdict::Wait => break,
        }
    }
    posted
}
