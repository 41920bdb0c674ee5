// The frame functions for firmware written in C, under the names of include/folgainu_frame.h.
#![tactic(auto)]

ghost use Rattle.std.specs.Prelude.{◌≡◌};
ghost use Rattle.frame.specs.Frames.{decoded};
ghost use Rattle.frame.specs.Exports.{read_as, composed, sent};

use frame::{FrameRead, FrameWritten};

/// Reads the frame at the start of `bytes`.
#[unsafe(no_mangle)]
pub extern "C" fn folgainu_frame_read(bytes: &[u8]) -> FrameRead
    ensures { result ≡ read_as (decoded bytes.now) }
{
    frame::folgainu_frame_read(bytes)
}

/// Writes a frame at the start of `out`: NO MESSAGE for numbers that make none, then BUFFER.
#[unsafe(no_mangle)]
pub extern "C" fn folgainu_frame_write(
    receiver: u32,
    kind: u32,
    page: u32,
    sender: u32,
    text: &[u8],
    out: &mut [u8],
) -> FrameWritten
    ensures { (result, out.new) ≡ sent (composed receiver kind page sender text.now) out.old }
{
    frame::folgainu_frame_write(receiver, kind, page, sender, text, out)
}
