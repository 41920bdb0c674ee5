// The party line: every message as a record, in one list, in order of posting.
ghost use Rattle.std.specs.Prelude.{◌≤◌, vec_len, vec_capacity};

use line::Message;

pub mod methods;

/// A line that holds 576 messages as records in one list. Its memory is had when it is made.
#[derive(Drop)]
pub struct PartyLine {
    messages: Vec<Message>,
    ghost within: { vec_len messages ≤ 576 },
    ghost reserved: { 576 ≤ vec_capacity messages },
}
