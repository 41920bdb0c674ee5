// A message, with all that is true of every message in its header's type.
use crate::header::Header;

pub mod methods;

/// A message from one station to another about a page: the text is the first bytes, as many as the header says. The
/// bytes are a fixed array, so that a message can be copied and needs no heap.
#[derive(Clone, Copy)]
pub struct Message {
    header: Header,
    text: [u8; 64],
}
