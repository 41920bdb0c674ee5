// The places of frames in bytes.
ghost use Rattle.std.specs.Prelude.{◌≤◌, length};

use line::Message;
use std::ops::Range;

/// A message on the line, and the bytes of its frame.
#[derive(Drop)]
pub struct Slot {
    pub message: Message,
    pub bytes: Range<usize>,
}

/// Goes over the frames that lie in `bytes` from the byte `at` on, one behind the other. Frames differ in size, so where
/// the next one begins is kept as an offset.
#[derive(Drop)]
pub struct Slots<'a> {
    pub bytes: &'a [u8],
    pub at: usize,
    ghost within: { at ≤ length bytes.now },
}
