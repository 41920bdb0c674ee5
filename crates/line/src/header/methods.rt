// Making a header of numbers that fit together.
ghost use Rattle.std.specs.Prelude.{◌≡◌, IfOk};
ghost use Rattle.std.specs.Result.{result_map_both};
ghost use Rattle.line.specs.Messages.{headed, fitted};
ghost use Rattle.line.specs.View.{Says};

use crate::fault::Misfit;
use crate::header::Header;
use crate::kind::Kind;

impl Header {
    /// The header of these numbers, or the first of them that fits no message.
    pub fn new(
        receiver: u32,
        kind: u32,
        page: u32,
        sender: u32,
        length: usize,
    ) -> Result<Header, Misfit>
        ensures value { result_map_both (λ h. h.kind) (λ e. e) result ≡ headed receiver kind page sender length }
        ensures says { IfOk result (Says receiver page sender length) }
    {
        if receiver >= 8 {
            return Err(Misfit::Receiver);
        }
        Header::of_kind(receiver, Kind::try_from(kind)?, page, sender, length)
    }

    /// The same for a kind.
    pub fn of_kind(
        receiver: u32,
        kind: Kind,
        page: u32,
        sender: u32,
        length: usize,
    ) -> Result<Header, Misfit>
        ensures value { result_map_both (λ h. h.kind) (λ e. e) result ≡ fitted receiver kind page sender length }
        ensures says { IfOk result (Says receiver page sender length) }
    {
        if receiver >= 8 {
            return Err(Misfit::Receiver);
        }
        if page >= 16 {
            return Err(Misfit::Page);
        }
        if sender >= 8 || sender == receiver {
            return Err(Misfit::Sender);
        }
        if length > 64 || (length > 0 && !kind.bears_text()) {
            return Err(Misfit::Length);
        }
        Ok(Header {
            receiver: receiver as u8,
            kind,
            page: page as u8,
            sender: sender as u8,
            length,
        })
    }
}
