// Messages as frames of bytes: five words and the text.
#![tactic(auto)]

mod codec;
mod exports;
mod fault;
#[cfg(test)]
mod tests;
mod theorem;

pub use codec::{HEADER, read, write};
pub use exports::{FrameRead, FrameWritten, compose, folgainu_frame_read, folgainu_frame_write};
pub use fault::FrameFault;
pub use theorem::round_trip;
