// What a station notes of a page: its row.
use crate::queue::Queue;
use crate::set::StationSet;

/// What a station wants a page for, or has it open for.
#[derive(Clone, Copy, Debug, PartialEq, Eq)]
pub enum Access {
    Read,
    Write,
}

/// A copy that a station away from home has of a page.
#[derive(Clone, Copy, Debug, PartialEq, Eq)]
pub enum CopyKind {
    Shared,
    Exclusive,
}

/// How a station stands to a page: it waits to read or to write, or has it open (READING, WRITING).
#[derive(Clone, Copy, Debug, PartialEq, Eq)]
pub enum Standing {
    Idle,
    Waiting(Access),
    Open(Access),
}

/// Who may have copies: nobody but the home, readers, or one writer.
#[derive(Clone, Copy, Debug, PartialEq, Eq)]
pub enum Mode {
    Own,
    Shared,
    Away,
}

/// What the home notes of a page besides: who holds copies, who of them was called back, and who wants the page.
// The mode stands beside the holders, which are a set of bits in every mode: the notes of the protocol are these, and each
// step says what becomes of both.
#[derive(Clone, Copy, Debug, PartialEq, Eq)]
pub struct Desk {
    pub mode: Mode,
    pub holders: StationSet,
    pub awaited: StationSet,
    pub queue: Queue,
}

/// What a station notes of a page. The copy and its two marks count away from home, the desk at home.
// Not an enum of two cases: each step would have to say what it does with a row of the other case, which never comes. Not
// marks within the copy: they are noted apart, and a step that takes the copy away says what becomes of them.
#[derive(Clone, Copy, Debug, PartialEq, Eq)]
pub struct Row {
    pub copy: Option<CopyKind>,
    pub changed: bool,
    pub recall: bool,
    pub standing: Standing,
    pub desk: Desk,
}
