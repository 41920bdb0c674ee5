// Making a message, and reading its parts.
ghost use Rattle.std.specs.Prelude.{◌≡◌, length};
ghost use Rattle.std.specs.Result.{result_map_both};
ghost use Rattle.line.specs.Refusals.{misfits, pair_of};
ghost use Rattle.line.specs.Messages.{msg, made};
ghost use Rattle.line.specs.View.{msg_of};

use crate::fault::Misfit;
use crate::header::Header;
use crate::kind::Kind;
use crate::message::Message;
use crate::pair::Pair;

impl Message {
    /// The message of these parts, or the first part that fits none.
    pub fn new(pair: Pair, page: u8, kind: Kind, text: &[u8]) -> Result<Message, Misfit>
        ensures { result_map_both msg_of misfits result ≡ made pair.sender pair.receiver page kind text.now }
    {
        let Pair { sender, receiver } = pair;
        let header = Header::of_kind(
            u32::from(receiver),
            kind,
            u32::from(page),
            u32::from(sender),
            text.len(),
        );
        Ok(Message::with_text(header?, text))
    }

    /// The message of a header and the text that it tells of.
    pub fn with_text(header: Header, text: &[u8]) -> Message
        requires { length text.now ≡ header.length }
        ensures { msg_of result ≡ msg header.sender header.receiver header.page header.kind text.now }
    {
        let mut bytes = [0; 64];
        bytes[..text.len()].copy_from_slice(text);
        Message {
            header,
            text: bytes,
        }
    }

    pub fn sender(&self) -> u8
        ensures { result ≡ (msg_of self.now).sender }
    {
        self.header.sender
    }

    pub fn receiver(&self) -> u8
        ensures { result ≡ (msg_of self.now).receiver }
    {
        self.header.receiver
    }

    /// Its sender and its receiver.
    pub fn pair(&self) -> Pair
        ensures { result ≡ pair_of (msg_of self.now).sender (msg_of self.now).receiver }
    {
        Pair {
            sender: self.sender(),
            receiver: self.receiver(),
        }
    }

    pub fn page(&self) -> u8
        ensures { result ≡ (msg_of self.now).page }
    {
        self.header.page
    }

    pub fn kind(&self) -> Kind
        ensures { result ≡ (msg_of self.now).kind }
    {
        self.header.kind
    }

    pub fn text(&self) -> &[u8]
        ensures { result.now ≡ (msg_of self.now).text }
    {
        &self.text[..self.header.length]
    }
}
