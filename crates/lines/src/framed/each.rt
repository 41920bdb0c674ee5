// Going over frames.
ghost use Rattle.std.specs.Iterator.{YieldsFirstBy, item_count};
ghost use Rattle.lines.specs.Slots.{spot, left};

use crate::framed::slots::{Slot, Slots};

impl<'a> Iterator for Slots<'a> {
    type Item = Slot;

    ghost next_gives = { YieldsFirstBy spot left };

    ghost remaining = { item_count left };

    fn next(&mut self) -> Option<Slot> {
        let (message, size) = frame::read(&self.bytes[self.at..]).ok()?;
        let start = self.at;
        self.at += size;
        Some(Slot {
            message,
            bytes: start..self.at,
        })
    }
}
