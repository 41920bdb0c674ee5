// Reading and writing one frame.
ghost use Rattle.std.specs.Prelude.{◌≡◌, ◌≤◌, length, take, IfOk, Ok};
ghost use Rattle.std.specs.Result.{result_map_both};
ghost use Rattle.line.specs.View.{msg_of};
ghost use Rattle.frame.specs.Refusals.{told};
ghost use Rattle.frame.specs.Frames.{encoded, written, decoded, seen};

use crate::fault::FrameFault;
use line::{Header, Message};

/// The bytes of the five words.
pub const HEADER: usize = 20;

/// The message that `bytes` begin with, and how many bytes its frame takes.
pub fn read(bytes: &[u8]) -> Result<(Message, usize), FrameFault>
    ensures exact { result_map_both seen told result ≡ decoded bytes.now }
    ensures taken { IfOk result (λ p. (20 ≤ p.1) × (p.1 ≤ length bytes.now)) }
    ensures back { IfOk result (λ p. encoded (msg_of p.0) ≡ take p.1 bytes.now) }
{
    // One slice pattern with a name for each byte: a rule of the project.
    let [
        r0,
        r1,
        r2,
        r3,
        k0,
        k1,
        k2,
        k3,
        p0,
        p1,
        p2,
        p3,
        s0,
        s1,
        s2,
        s3,
        n0,
        n1,
        n2,
        n3,
        rest @ ..,
    ] = bytes
    else {
        return Err(FrameFault::Cut(bytes.len()));
    };
    let receiver = u32::from_be_bytes([*r0, *r1, *r2, *r3]);
    let kind = u32::from_be_bytes([*k0, *k1, *k2, *k3]);
    let page = u32::from_be_bytes([*p0, *p1, *p2, *p3]);
    let sender = u32::from_be_bytes([*s0, *s1, *s2, *s3]);
    let length = u32::from_be_bytes([*n0, *n1, *n2, *n3]) as usize;
    let header = Header::new(receiver, kind, page, sender, length)?;
    if rest.len() < length {
        return Err(FrameFault::Cut(bytes.len()));
    }
    let message = Message::with_text(header, &rest[..length]);
    Ok((message, HEADER + length))
}

/// The frame of `message` at the start of `out`, and its size; the bytes after it stand.
#[tactic(auto, using(line::proofs::Making::short))]
pub fn write(message: &Message, out: &mut [u8]) -> Result<usize, FrameFault>
    ensures exact { (result_map_both (λ n. n) told result, out.new) ≡ written (msg_of message.now) out.old }
    ensures again { IfOk result (λ n. decoded out.new ≡ Ok (msg_of message.now, n)) }
{
    let text = message.text();
    let size = HEADER + text.len();
    if out.len() < size {
        return Err(FrameFault::Buffer(out.len()));
    }
    let words = [
        u32::from(message.receiver()).to_be_bytes(),
        u32::from(u8::from(message.kind())).to_be_bytes(),
        u32::from(message.page()).to_be_bytes(),
        u32::from(message.sender()).to_be_bytes(),
        (text.len() as u32).to_be_bytes(),
    ];
    out[0..HEADER].copy_from_slice(words.as_flattened());
    out[HEADER..size].copy_from_slice(text);
    Ok(size)
}
