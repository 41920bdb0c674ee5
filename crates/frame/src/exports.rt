// Both operations on numbers and byte slices: the crate `frame_c` exports them to C. They stand here, since no Rattle crate
// can use a static library. A status and an offset are what C is told: it has no Result.
ghost use Rattle.std.specs.Prelude.{◌≡◌};
ghost use Rattle.std.specs.Result.{result_map_both};
ghost use Rattle.line.specs.View.{msg_of};
ghost use Rattle.frame.specs.Refusals.{told};
ghost use Rattle.frame.specs.Frames.{decoded};
ghost use Rattle.frame.specs.Exports.{read_as, written_as, composed, sent, offset as offset_of};

use crate::codec::{read, write};
use crate::fault::FrameFault;
use line::{Header, Message, Place, Refusal};

/// What was read. Status 0: the message, whose text is the `length` bytes from 20 on, and in `at` the bytes taken.
/// Any other status is the refusal's number, and `at` its offset; the rest is 0.
#[repr(C)]
#[derive(Clone, Copy, Debug, Default, PartialEq, Eq)]
pub struct FrameRead {
    pub status: u32,
    pub receiver: u32,
    pub kind: u32,
    pub page: u32,
    pub sender: u32,
    pub length: u32,
    pub at: usize,
}

/// What was written. Status 0: `at` is the frame's size. Any other status is the refusal's number, and `at` its offset.
#[repr(C)]
#[derive(Clone, Copy, Debug, Default, PartialEq, Eq)]
pub struct FrameWritten {
    pub status: u32,
    pub at: usize,
}

/// The offset of a frame's fault; other places have none.
// Not a `From`: a place is no number, but C has nothing else for it.
fn offset(place: Place) -> usize
    ensures { result ≡ offset_of place }
{
    match place {
        Place::Offset(at) => at,
        Place::Pair(_) | Place::Row(_) => 0,
    }
}

/// The message of these numbers and this text.
pub fn compose(
    receiver: u32,
    kind: u32,
    page: u32,
    sender: u32,
    text: &[u8],
) -> Result<Message, FrameFault>
    ensures { result_map_both msg_of told result ≡ composed receiver kind page sender text.now }
{
    let header = Header::new(receiver, kind, page, sender, text.len())?;
    Ok(Message::with_text(header, text))
}

/// Writes the frame of these numbers and this text into `out`.
fn write_parts(
    receiver: u32,
    kind: u32,
    page: u32,
    sender: u32,
    text: &[u8],
    out: &mut [u8],
) -> Result<usize, FrameFault>
    ensures { (written_as (result_map_both (λ n. n) told result), out.new) ≡ sent (composed receiver kind page sender text.now) out.old }
{
    let message = compose(receiver, kind, page, sender, text)?;
    write(&message, out)
}

/// Reads the frame at the start of `bytes`.
pub fn folgainu_frame_read(bytes: &[u8]) -> FrameRead
    ensures { result ≡ read_as (decoded bytes.now) }
{
    match read(bytes) {
        Ok((message, at)) => FrameRead {
            status: 0,
            receiver: u32::from(message.receiver()),
            kind: u32::from(u8::from(message.kind())),
            page: u32::from(message.page()),
            sender: u32::from(message.sender()),
            length: message.text().len() as u32,
            at,
        },
        Err(fault) => {
            let refusal = Refusal::from(fault);
            FrameRead {
                status: u32::from(refusal.number),
                at: offset(refusal.place),
                ..FrameRead::default()
            }
        }
    }
}

/// Writes a frame at the start of `out`: NO MESSAGE for numbers that make none, then BUFFER.
pub fn folgainu_frame_write(
    receiver: u32,
    kind: u32,
    page: u32,
    sender: u32,
    text: &[u8],
    out: &mut [u8],
) -> FrameWritten
    ensures { (result, out.new) ≡ sent (composed receiver kind page sender text.now) out.old }
{
    match write_parts(receiver, kind, page, sender, text, out) {
        Ok(at) => FrameWritten { status: 0, at },
        Err(fault) => {
            let refusal = Refusal::from(fault);
            FrameWritten {
                status: u32::from(refusal.number),
                at: offset(refusal.place),
            }
        }
    }
}
