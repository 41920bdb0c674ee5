// The steps of a station away from a page's home.
ghost use Rattle.std.specs.Prelude.{◌≡◌, ◌+◌, ◌<◌, ◌≤◌, true, length};
ghost use Rattle.line.specs.Kinds.{bears};
ghost use Rattle.line.specs.Lists.{paired, total as sum};
ghost use Rattle.notes.specs.View.{notes_of};
ghost use Rattle.steps.specs.Steps.{Counted};
ghost use Rattle.steps.specs.Steps.{done, given_back, started_away, ended_away};

use crate::post::send;
use crate::site::Away;
use crate::text::Text;
use line::{Kind, Line};
use notes::{Access, CopyKind, Row, Standing};

impl Away {
    /// Gives a copy back: with its text, by the kind `changed`, where it was changed, and else by the kind `unchanged`.
    // Two kinds and not a name for the two: where it is called one reads what is posted.
    pub fn give_back<L: Line>(
        self,
        row: &mut Row,
        changed: Kind,
        unchanged: Kind,
        text: &Text,
        line: &mut L,
    )
        requires bears { bears changed ≡ true }
        requires free { sum (paired (L.Line.waiting line.old)) < L.Line.CAPACITY }
        ensures step { (notes_of row.new, text.now, paired (L.Line.waiting line.new)) ≡ done (given_back self.site.station self.site.home self.site.page changed unchanged (notes_of row.old) text.now) (paired (L.Line.waiting line.old)) }
        ensures counted { Counted (paired (L.Line.waiting line.old)) (paired (L.Line.waiting line.new)) 1 }
    {
        let is_exclusive = row.copy == Some(CopyKind::Exclusive);
        let was_changed = row.changed;
        row.copy = None;
        row.changed = false;
        row.recall = false;
        if is_exclusive && was_changed {
            send(
                line,
                self.site.to_home(),
                self.site.page,
                changed,
                text.as_bytes(),
            );
        } else {
            send(line, self.site.to_home(), self.site.page, unchanged, &[]);
        }
    }

    /// Starts where a copy may be at hand: opens the page, or asks the home for it.
    pub fn start<L: Line>(self, row: &mut Row, access: Access, text: &[u8], line: &mut L) -> usize
        requires free { sum (paired (L.Line.waiting line.old)) < L.Line.CAPACITY }
        ensures step { (notes_of row.new, text.now, paired (L.Line.waiting line.new)) ≡ done (started_away self.site.station self.site.home self.site.page access (notes_of row.old) text.now) (paired (L.Line.waiting line.old)) }
        ensures posted { result ≡ length (started_away self.site.station self.site.home self.site.page access (notes_of row.old) text.now).posts }
        ensures counted { Counted (paired (L.Line.waiting line.old)) (paired (L.Line.waiting line.new)) result }
    {
        let request = match (access, row.copy) {
            (Access::Read, None) => Kind::ReadRequest,
            (Access::Write, None | Some(CopyKind::Shared)) => Kind::WriteRequest,
            _ => {
                row.standing = Standing::Open(access);
                return 0;
            }
        };
        row.standing = Standing::Waiting(access);
        send(line, self.site.to_home(), self.site.page, request, &[]);
        1
    }

    /// Ends: the page is no longer open, and a copy that was called back goes back.
    pub fn end<L: Line>(self, row: &mut Row, text: &Text, line: &mut L) -> usize
        requires free { sum (paired (L.Line.waiting line.old)) < L.Line.CAPACITY }
        ensures step { (notes_of row.new, text.now, paired (L.Line.waiting line.new)) ≡ done (ended_away self.site.station self.site.home self.site.page (notes_of row.old) text.now) (paired (L.Line.waiting line.old)) }
        ensures posted { result ≡ length (ended_away self.site.station self.site.home self.site.page (notes_of row.old) text.now).posts }
        ensures counted { Counted (paired (L.Line.waiting line.old)) (paired (L.Line.waiting line.new)) result }
    {
        row.standing = Standing::Idle;
        if !row.recall {
            return 0;
        }
        self.give_back(row, Kind::AckWithText, Kind::Ack, text, line);
        1
    }
}
