// The words of a message that fit together, with all that is true of them in their type.
ghost use Rattle.std.specs.Prelude.{◌≡◌, ◌<◌, ◌≤◌, false, ◌≢◌};
ghost use Rattle.line.specs.Kinds.{bears};

use crate::kind::Kind;

pub mod methods;

/// What a frame has in front of its text: who gets the message, its kind, its page, who sends it, and how long its
/// text is, at most 64 bytes and only where its kind bears one.
#[derive(Clone, Copy)]
pub struct Header {
    pub receiver: u8,
    pub kind: Kind,
    pub page: u8,
    pub sender: u8,
    pub length: usize,
    ghost receiver_in: { receiver < 8 },
    ghost page_in: { page < 16 },
    ghost sender_in: { sender < 8 },
    ghost apart: { (sender ≢ receiver) },
    ghost length_in: { length ≤ 64 },
    ghost mute: { (bears kind ≡ false → length ≡ 0) },
}
