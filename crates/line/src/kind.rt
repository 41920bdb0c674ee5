// The ten kinds of message, by their numbers.
ghost use Rattle.std.specs.Prelude.{◌≡◌, Some, ok_or};
ghost use Rattle.line.specs.declared.fault.Misfit.TheVariants.{Kind as KindPart};
ghost use Rattle.line.specs.Kinds.{number, kind_of, bears, title};

use crate::fault::Misfit;
use std::fmt;

/// What a message asks, gives or answers. Kinds 1 to 4 go from a page's home to the other stations, 5 to 10 to the home.
#[derive(Clone, Copy, Debug, PartialEq, Eq)]
pub enum Kind {
    SharedCopy = 1,
    ExclusiveCopy = 2,
    ModifyGrant = 3,
    Invalidate = 4,
    ReadRequest = 5,
    WriteRequest = 6,
    Ack = 7,
    AckWithText = 8,
    Flush = 9,
    FlushWithText = 10,
}

/// The kind's number, 1 to 10.
impl From<Kind> for u8 {
    ghost from_gives = { λ kind n. n ≡ number kind };

    fn from(kind: Kind) -> u8 {
        kind as u8
    }
}

/// The kind with this number: any other number fits no message.
impl TryFrom<u32> for Kind {
    type Error = Misfit;

    ghost try_from_gives = { λ n r. r ≡ ok_or (kind_of n) KindPart };

    fn try_from(number: u32) -> Result<Kind, Misfit> {
        match number {
            1 => Ok(Kind::SharedCopy),
            2 => Ok(Kind::ExclusiveCopy),
            3 => Ok(Kind::ModifyGrant),
            4 => Ok(Kind::Invalidate),
            5 => Ok(Kind::ReadRequest),
            6 => Ok(Kind::WriteRequest),
            7 => Ok(Kind::Ack),
            8 => Ok(Kind::AckWithText),
            9 => Ok(Kind::Flush),
            10 => Ok(Kind::FlushWithText),
            _ => Err(Misfit::Kind),
        }
    }
}

impl Kind {
    /// Whether a message of this kind may bear a text.
    pub fn bears_text(self) -> bool
        ensures { result ≡ bears self }
    {
        matches!(
            self,
            Kind::SharedCopy | Kind::ExclusiveCopy | Kind::AckWithText | Kind::FlushWithText
        )
    }

    /// The kind's name, as a technician reads it.
    pub fn name(self) -> &'static str
        ensures { result.now ≡ title self }
    {
        match self {
            Kind::SharedCopy => "SHARED COPY",
            Kind::ExclusiveCopy => "EXCLUSIVE COPY",
            Kind::ModifyGrant => "MODIFY GRANT",
            Kind::Invalidate => "INVALIDATE",
            Kind::ReadRequest => "READ REQUEST",
            Kind::WriteRequest => "WRITE REQUEST",
            Kind::Ack => "ACK",
            Kind::AckWithText => "ACK WITH TEXT",
            Kind::Flush => "FLUSH",
            Kind::FlushWithText => "FLUSH WITH TEXT",
        }
    }
}

impl fmt::Display for Kind {
    ghost output = { λ kind. Some (title kind) };

    fn fmt<W: fmt::Write>(&self, f: &mut fmt::Formatter<W>) -> fmt::Result {
        f.write_str(self.name())
    }
}
