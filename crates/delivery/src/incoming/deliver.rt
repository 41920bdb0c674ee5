// What a station does with a message.
ghost use Rattle.std.specs.Prelude.{◌≡◌, ◌<◌, ◌≤◌, length, IfOk, ◌≢◌};
ghost use Rattle.std.specs.Result.{result_map_both};
ghost use Rattle.line.specs.Lists.{paired};
ghost use Rattle.line.specs.View.{msg_of};
ghost use Rattle.notes.specs.View.{notes_of};
ghost use Rattle.station.specs.Refusals.{told};
ghost use Rattle.delivery.specs.Deliveries.{goes_right, is_whole};
ghost use Rattle.delivery.specs.Taking.{delivering};
ghost use Rattle.steps.specs.Steps.{Counted};
ghost use Rattle.steps.specs.Soundness.{Sound};

use crate::incoming::Incoming;
use line::{Kind, Line, Message};
use notes::{Access, CopyKind, Mode, Row, Standing};
use station::StationFault;
use steps::Text;

/// Whether a kind that bears a text brings one of the page's length.
fn is_whole(message: &Message, text: &[u8]) -> bool
    ensures { result ≡ is_whole (msg_of message.now).kind (msg_of message.now).text text.now }
{
    !message.kind().bears_text() || message.text().len() == text.len()
}

impl Incoming {
    /// Whether a kind comes from the page's home, or else goes to it, as it should.
    fn goes_right(self, kind: Kind) -> bool
        ensures { result ≡ goes_right self.sender self.site.station self.site.home kind }
    {
        match kind {
            Kind::SharedCopy | Kind::ExclusiveCopy | Kind::ModifyGrant | Kind::Invalidate => {
                self.sender == self.site.home
            }
            _ => self.site.station == self.site.home,
        }
    }

    /// Takes a message from the sender to this station, and tells how many messages that takes: STRANGE, then FULL. By the
    /// kind and the own row together.
    // One match on both, in place: a rule of the project, as is FULL after STRANGE, in the arm. So no table of steps.
    pub fn deliver<L: Line>(
        self,
        row: &mut Row,
        message: &Message,
        text: &mut [u8],
        line: &mut L,
    ) -> Result<usize, StationFault>
        requires sound { self.site.station ≡ self.site.home → Sound self.site.home (notes_of row.old) }
        requires short { length text.old ≤ 64 }
        ensures exact { (result_map_both (λ x. x) told result, notes_of row.new, text.new, paired (L.Line.waiting line.new)) ≡ delivering self.sender self.site.station self.site.home self.site.page L.Line.CAPACITY (msg_of message.now) (notes_of row.old) text.old (paired (L.Line.waiting line.old)) }
        ensures counted { IfOk result (Counted (paired (L.Line.waiting line.old)) (paired (L.Line.waiting line.new))) }
        ensures sound { self.site.station ≡ self.site.home → Sound self.site.home (notes_of row.new) }
    {
        let is_queued = row.desk.queue.has(self.sender);
        let holds = row.desk.holders.has(self.sender);
        let is_awaited = row.desk.awaited.has(self.sender);
        let is_away = row.desk.mode == Mode::Away;
        if !self.goes_right(message.kind()) || !is_whole(message, text) {
            return Err(StationFault::Strange(self.pair()));
        }
        match (message.kind(), row.copy, row.standing) {
            (Kind::SharedCopy, None, Standing::Waiting(Access::Read)) => {
                self.take_copy(row, Access::Read, message, text, line)
            }
            (Kind::ExclusiveCopy, None, Standing::Waiting(Access::Write)) => {
                self.take_copy(row, Access::Write, message, text, line)
            }
            (Kind::ModifyGrant, Some(CopyKind::Shared), Standing::Waiting(Access::Write)) => {
                self.take_grant(row, &Text::new(text), line)
            }
            (Kind::Invalidate, _, _) if !row.recall => self.take_recall(
                row,
                &Text::new(text),
                line,
            ),
            (Kind::ReadRequest, _, _) if !is_queued && !holds => {
                self.take_request(row, Access::Read, &Text::new(text), line)
            }
            (Kind::WriteRequest, _, _) if !is_queued && !(is_away && holds) => {
                self.take_request(row, Access::Write, &Text::new(text), line)
            }
            (Kind::Ack, _, _) if is_awaited => self.take_ack(row, &Text::new(text), line),
            (Kind::AckWithText, _, _) if is_awaited && is_away => {
                self.take_text(row, message, text, line)
            }
            (Kind::Flush, _, _) if holds => self.take_ack(row, &Text::new(text), line),
            (Kind::FlushWithText, _, _) if holds && is_away => {
                self.take_text(row, message, text, line)
            }
            _ => Err(StationFault::Strange(self.pair())),
        }
    }
}
