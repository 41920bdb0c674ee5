// What a message does at its receiver, if there is room for what that posts.
ghost use Rattle.std.specs.Prelude.{◌≡◌, ◌<◌, ◌≤◌, true, false, [], length, IfOk, ◌≢◌};
ghost use Rattle.std.specs.Result.{result_map_both};
ghost use Rattle.line.specs.Lists.{paired};
ghost use Rattle.line.specs.View.{msg_of};
ghost use Rattle.notes.specs.Queues.{queued};
ghost use Rattle.notes.specs.Sets.{isin};
ghost use Rattle.notes.specs.View.{notes_of};
ghost use Rattle.station.specs.Refusals.{told};
ghost use Rattle.steps.specs.Steps.{Counted, step};
ghost use Rattle.steps.specs.Serving.{serve as serves, enqueued, returned};
ghost use Rattle.delivery.specs.Deliveries.{opened, called};
ghost use Rattle.delivery.specs.Taking.{taking};
ghost use Rattle.steps.specs.Soundness.{Sound};

use crate::incoming::Incoming;
use line::{Kind, Line, Message, Place};
use notes::{Access, CopyKind, Row, Standing};
use station::{StationFault, check_room};
use steps::{Away, Text, enqueue, take_back};

/// A copy to read, or to write, is there and open.
fn open_copy(row: &mut Row, access: Access)
    ensures { notes_of row.new ≡ opened access (notes_of row.old) }
{
    match access {
        Access::Read => row.copy = Some(CopyKind::Shared),
        Access::Write => {
            row.copy = Some(CopyKind::Exclusive);
            row.changed = false;
        }
    }
    row.standing = Standing::Open(access);
}

impl Incoming {
    /// A copy comes with its text.
    pub(crate) fn take_copy<L: Line>(
        self,
        row: &mut Row,
        access: Access,
        message: &Message,
        text: &mut [u8],
        line: &L,
    ) -> Result<usize, StationFault>
        requires whole { length (msg_of message.now).text ≡ length text.old }
        ensures exact { (result_map_both (λ x. x) told result, notes_of row.new, text.new, paired (L.Line.waiting line.now)) ≡ taking self.sender self.site.station L.Line.CAPACITY (notes_of row.old) text.old (paired (L.Line.waiting line.now)) (step (opened access (notes_of row.old)) (msg_of message.now).text []) }
        ensures counted { IfOk result (λ n. n ≡ 0) }
    {
        check_room(line, Place::Pair(self.pair()))?;
        text.copy_from_slice(message.text());
        open_copy(row, access);
        Ok(0)
    }

    /// The right to write comes to a station with a copy.
    pub(crate) fn take_grant<L: Line>(
        self,
        row: &mut Row,
        text: &Text,
        line: &L,
    ) -> Result<usize, StationFault>
        ensures exact { (result_map_both (λ x. x) told result, notes_of row.new, text.now, paired (L.Line.waiting line.now)) ≡ taking self.sender self.site.station L.Line.CAPACITY (notes_of row.old) text.now (paired (L.Line.waiting line.now)) (step (opened Access.Write (notes_of row.old)) text.now []) }
        ensures counted { IfOk result (λ n. n ≡ 0) }
    {
        check_room(line, Place::Pair(self.pair()))?;
        open_copy(row, Access::Write);
        Ok(0)
    }

    /// The home calls the copy back: nothing without one, a mark while the page is open, else it goes back.
    pub(crate) fn take_recall<L: Line>(
        self,
        row: &mut Row,
        text: &Text,
        line: &mut L,
    ) -> Result<usize, StationFault>
        requires away { self.site.station ≢ self.site.home }
        ensures exact { (result_map_both (λ x. x) told result, notes_of row.new, text.now, paired (L.Line.waiting line.new)) ≡ taking self.sender self.site.station L.Line.CAPACITY (notes_of row.old) text.now (paired (L.Line.waiting line.old)) (called self.site.station self.site.home self.site.page (notes_of row.old) text.now) }
        ensures counted { IfOk result (Counted (paired (L.Line.waiting line.old)) (paired (L.Line.waiting line.new))) }
    {
        check_room(line, Place::Pair(self.pair()))?;
        match (row.copy, row.standing) {
            (None, _) => Ok(0),
            (_, Standing::Open(_)) => {
                row.recall = true;
                Ok(0)
            }
            _ => {
                Away { site: self.site }.give_back(row, Kind::AckWithText, Kind::Ack, text, line);
                Ok(1)
            }
        }
    }

    /// A station asks for the page.
    pub(crate) fn take_request<L: Line>(
        self,
        row: &mut Row,
        access: Access,
        text: &Text,
        line: &mut L,
    ) -> Result<usize, StationFault>
        requires sound { Sound self.site.home (notes_of row.old) }
        requires home { self.site.station ≡ self.site.home }
        requires new { queued self.sender (notes_of row.old).home.queue ≡ false }
        ensures exact { (result_map_both (λ x. x) told result, notes_of row.new, text.now, paired (L.Line.waiting line.new)) ≡ taking self.sender self.site.station L.Line.CAPACITY (notes_of row.old) text.now (paired (L.Line.waiting line.old)) (serves self.site.home self.site.page text.now (enqueued self.sender access (notes_of row.old))) }
        ensures counted { IfOk result (Counted (paired (L.Line.waiting line.old)) (paired (L.Line.waiting line.new))) }
        ensures sound { Sound self.site.home (notes_of row.new) }
    {
        check_room(line, Place::Pair(self.pair()))?;
        Ok(enqueue(row, self.site, self.sender, access, text, line))
    }

    /// A copy comes back without a text.
    pub(crate) fn take_ack<L: Line>(
        self,
        row: &mut Row,
        text: &Text,
        line: &mut L,
    ) -> Result<usize, StationFault>
        requires sound { Sound self.site.home (notes_of row.old) }
        requires holder { isin self.sender (notes_of row.old).home.holders ≡ true }
        ensures exact { (result_map_both (λ x. x) told result, notes_of row.new, text.now, paired (L.Line.waiting line.new)) ≡ taking self.sender self.site.station L.Line.CAPACITY (notes_of row.old) text.now (paired (L.Line.waiting line.old)) (serves self.site.home self.site.page text.now (returned self.sender (notes_of row.old))) }
        ensures counted { IfOk result (Counted (paired (L.Line.waiting line.old)) (paired (L.Line.waiting line.new))) }
        ensures sound { Sound self.site.home (notes_of row.new) }
    {
        check_room(line, Place::Pair(self.pair()))?;
        Ok(take_back(row, self.site, self.sender, text, line))
    }

    /// A copy comes back with its text.
    pub(crate) fn take_text<L: Line>(
        self,
        row: &mut Row,
        message: &Message,
        text: &mut [u8],
        line: &mut L,
    ) -> Result<usize, StationFault>
        requires sound { Sound self.site.home (notes_of row.old) }
        requires holder { isin self.sender (notes_of row.old).home.holders ≡ true }
        requires short { length text.old ≤ 64 }
        requires whole { length (msg_of message.now).text ≡ length text.old }
        ensures exact { (result_map_both (λ x. x) told result, notes_of row.new, text.new, paired (L.Line.waiting line.new)) ≡ taking self.sender self.site.station L.Line.CAPACITY (notes_of row.old) text.old (paired (L.Line.waiting line.old)) (serves self.site.home self.site.page (msg_of message.now).text (returned self.sender (notes_of row.old))) }
        ensures counted { IfOk result (Counted (paired (L.Line.waiting line.old)) (paired (L.Line.waiting line.new))) }
        ensures sound { Sound self.site.home (notes_of row.new) }
    {
        check_room(line, Place::Pair(self.pair()))?;
        text.copy_from_slice(message.text());
        Ok(take_back(row, self.site, self.sender, &Text::new(text), line))
    }
}
