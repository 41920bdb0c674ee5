// Prints a capture of frames in words, and sends its messages over both kinds of line.
#![tactic(auto)]

use frame::FrameFault;
use line::{Line, LineFault, Message, Pair, Place, Refusal, RowId};
use lines::{FrameLine, PartyLine};
use std::io::Read;
use std::{fmt, io};

/// A message in words: stations, kind by name and number, page, and the text in hexadecimal.
#[derive(Clone, Copy)]
struct InWords(Message);

impl fmt::Display for InWords {
    fn fmt<W: fmt::Write>(&self, f: &mut fmt::Formatter<W>) -> fmt::Result {
        let message = self.0;
        let Pair { sender, receiver } = message.pair();
        let kind = message.kind();
        let number = u8::from(kind);
        let page = message.page();
        write!(f, "{sender} to {receiver}, {kind} {number}, page {page}")?;
        if kind.bears_text() {
            write!(f, ", text ")?;
            for byte in message.text() {
                write!(f, "{byte:02X}")?;
            }
        }
        Ok(())
    }
}

/// A refusal of a line in words: number, name and place.
#[derive(Clone, Copy)]
struct Refused(LineFault);

impl fmt::Display for Refused {
    fn fmt<W: fmt::Write>(&self, f: &mut fmt::Formatter<W>) -> fmt::Result {
        let fault = self.0;
        let refusal = Refusal::from(fault);
        write!(f, "refused {} {fault}", refusal.number)?;
        match refusal.place {
            Place::Pair(Pair { sender, receiver }) => write!(f, ", {sender} to {receiver}"),
            Place::Offset(at) => write!(f, " at {at}"),
            Place::Row(RowId { station, page }) => write!(f, ", station {station}, page {page}"),
        }
    }
}

/// Why the bytes from an offset of the capture on were not read: number, name and the fault's own offset there.
#[derive(Clone, Copy)]
struct Left(usize, FrameFault);

impl fmt::Display for Left {
    fn fmt<W: fmt::Write>(&self, f: &mut fmt::Formatter<W>) -> fmt::Result {
        let Left(start, fault) = *self;
        let refusal = Refusal::from(fault);
        let at = match refusal.place {
            Place::Offset(at) => start.saturating_add(at),
            _ => start,
        };
        write!(
            f,
            "left from {start}: refused {} {fault} at {at}",
            refusal.number
        )
    }
}

/// Takes every message off the line, pair by pair, oldest first.
fn take_off<L: Line>(rt: &impl Print, name: &str, line: &mut L) -> io::Result<()> {
    println!(rt; "{name}: {} of {} places taken", line.total(), L::CAPACITY)?;
    for sender in 0..8 {
        for receiver in 0..8 {
            let pair = Pair { sender, receiver };
            for _ in 0..line.count(pair).unwrap_or(0) {
                match line.peek(pair) {
                    Ok(message) => println!(rt; "{}", InWords(message))?,
                    Err(fault) => println!(rt; "{}", Refused(fault))?,
                }
                let _ = line.drop_oldest(pair);
            }
        }
    }
    println!(rt; "{name}: {} of {} places taken", line.total(), L::CAPACITY)
}

/// Posts the message, and says so where the line refuses it.
fn post<L: Line>(rt: &impl Print, line: &mut L, message: Message) -> io::Result<()> {
    match line.post(message) {
        Ok(()) => Ok(()),
        Err(fault) => println!(rt; "{}", Refused(fault)),
    }
}

/// Reads frame after frame, prints each message and posts it on both lines.
fn read_all(
    rt: &impl Print,
    bytes: &[u8],
    party: &mut PartyLine,
    framed: &mut FrameLine,
) -> io::Result<()> {
    let mut rest = bytes;
    let mut messages = 0u64;
    while !rest.is_empty() {
        match frame::read(rest) {
            Ok((message, size)) => {
                println!(rt; "{}", InWords(message))?;
                post(rt, party, message)?;
                post(rt, framed, message)?;
                rest = &rest[size..];
                messages = messages.saturating_add(1);
            }
            Err(fault) => {
                println!(rt; "{}", Left(bytes.len() - rest.len(), fault))?;
                break;
            }
        }
    }
    println!(rt;
        "{messages} messages, {} of {} bytes",
        bytes.len() - rest.len(),
        bytes.len()
    )
}

fn run(rt: &HostRuntime) -> anyhow::Result<()> {
    let mut capture = Vec::new(rt.alloc());
    rt.stdin().read_to_end(&mut capture)?;
    let mut party = PartyLine::new(rt.alloc())?;
    let mut framed = FrameLine::new(rt.alloc())?;
    read_all(rt, &capture, &mut party, &mut framed)?;
    take_off(rt, "party line", &mut party)?;
    take_off(rt, "frame line", &mut framed)?;
    Ok(())
}

fn main(rt: HostRuntime) -> anyhow::Result<()> {
    run(&rt)
}
