// What a plan says, as the house uses it.
use crate::list::FixedList;

/// A page of the plan: its home, its length, and the offset of its text in the plan's bytes.
#[derive(Clone, Copy, Default)]
pub struct Page {
    pub home: u8,
    pub length: u8,
    pub text: usize,
}

/// A plan that was read: the letter of each station, and the pages.
#[derive(Clone, Copy)]
pub struct Plan {
    pub letters: FixedList<u8, 8>,
    pub pages: FixedList<Page, 16>,
}
