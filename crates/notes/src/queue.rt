// Who wants a page, oldest first.
ghost use Rattle.std.specs.Prelude.{◌≡◌, ◌<◌, [], ◌∷◌, ◌++◌, length, drop};
ghost use Rattle.notes.specs.Queues.{entries, oldest, queued};

use crate::row::Access;

/// A station that wants a page.
#[derive(Clone, Copy, Debug, PartialEq, Eq)]
pub struct Entry {
    pub station: u8,
    pub access: Access,
}

/// At most eight entries, oldest first: the slots up to the first free one, which ends them. `==` compares the slots.
// Eight slots and no count: every value is then a queue, and no fact has to be kept in the rows' arrays.
// Not an `impl Model` as the list of its entries: any eight slots are a queue, so the entries do not give the slots
// back, as a model of a `Copy` type has to; an invariant that they do would ask more of whoever writes the slots.
#[derive(Clone, Copy, Debug, PartialEq, Eq)]
pub struct Queue {
    pub slots: [Option<Entry>; 8],
}

impl Queue {
    /// The queue with no entry.
    pub fn empty() -> Queue
        ensures { entries result.slots ≡ [] }
    {
        Queue { slots: [None; 8] }
    }

    /// The oldest entry.
    pub fn first(&self) -> Option<Entry>
        ensures { result ≡ oldest (entries self.now.slots) }
    {
        self.slots[0]
    }

    /// Takes the oldest entry out.
    #[tactic(auto, using(crate::proofs::Slots::popped))]
    pub fn pop(&mut self)
        requires { 0 < length (entries self.old.slots) }
        ensures { entries self.new.slots ≡ drop 1 (entries self.old.slots) }
    {
        self.slots.rotate_left(1);
        self.slots[7] = None;
    }

    /// Puts an entry last.
    pub fn push(&mut self, entry: Entry)
        requires { length (entries self.old.slots) < 8 }
        ensures { entries self.new.slots ≡ entries self.old.slots ++ (entry ∷ []) }
    {
        if let Some(place) = self.slots.iter().position(Option::is_none) {
            self.slots[place] = Some(entry);
            if place < 7 {
                self.slots[place + 1] = None;
            }
        }
    }

    /// Whether the station has an entry.
    pub fn has(&self, station: u8) -> bool
        ensures { result ≡ queued station (entries self.now.slots) }
    {
        self.slots
            .iter()
            .map_while(|slot| *slot)
            .any(|entry| entry.station == station)
    }
}
