// The two frames that docs/MESSAGES.md has in full.
use crate::codec::{read, write};
use line::{Kind, Message, Pair};
use std::test::Fail;

/// Writes the message and reads it again: the bytes are these, and as many are taken.
fn check_frame(message: Message, frame: &[u8]) -> Result<(), Fail> {
    let mut out = [0xEE; 24];
    let size = write(&message, &mut out)?;
    if size != frame.len() || size >= 24 {
        return Err(Fail::new("the frame's size"));
    }
    if &out[0..size] != frame {
        return Err(Fail::new("the frame's bytes"));
    }
    if out[23] != 0xEE {
        return Err(Fail::new("the byte after the frame"));
    }
    let (again, taken) = read(&out)?;
    if taken != size {
        return Err(Fail::new("how many bytes are taken"));
    }
    if again.text() != message.text() {
        return Err(Fail::new("the text that was read"));
    }
    Ok(())
}

#[test]
fn invalidate() -> Result<(), Fail> {
    let message = Message::new(
        Pair {
            sender: 0,
            receiver: 1,
        },
        0,
        Kind::Invalidate,
        b"",
    )?;
    let frame = [0, 0, 0, 1, 0, 0, 0, 4, 0, 0, 0, 0, 0, 0, 0, 0, 0, 0, 0, 0];
    check_frame(message, &frame)
}

#[test]
fn ack_with_text() -> Result<(), Fail> {
    let message = Message::new(
        Pair {
            sender: 1,
            receiver: 0,
        },
        0,
        Kind::AckWithText,
        b"Ah!",
    )?;
    let frame = [
        0, 0, 0, 0, 0, 0, 0, 8, 0, 0, 0, 0, 0, 0, 0, 1, 0, 0, 0, 3, 0x41, 0x68, 0x21,
    ];
    check_frame(message, &frame)
}
