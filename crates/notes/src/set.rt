// Sets of stations.
ghost use Rattle.std.specs.Prelude.{◌≡◌, ℕ, ◌<◌, true, false, length, if◌then◌else◌, ◌==◌, nat_eq};
ghost use Rattle.std.specs.Iterator.{YieldsFirst, item_count};
ghost use Rattle.notes.specs.Sets.{isin, only, joined, left, members};

/// A set of stations: bit k is set when station k is in it.
// A station is a plain number below eight, as in a message and in a queue's entry: a type for it would ask each caller
// to convert, so the four methods that take one require the bound.
#[derive(Clone, Copy, Debug, PartialEq, Eq)]
pub struct StationSet {
    pub bits: u8,
}

impl StationSet {
    /// The set with no station.
    pub fn empty() -> StationSet
        ensures { result.bits ≡ 0 }
    {
        StationSet { bits: 0 }
    }

    /// The set with one station.
    #[tactic(auto, using(crate::proofs::Bits::shifted, crate::proofs::Bits::alone))]
    pub fn only(station: u8) -> StationSet
        requires { station < 8 }
        ensures exact { result.bits ≡ only station }
        ensures members { (k : ℕ) → k < 8 → isin k result.bits ≡ (k == station) }
    {
        StationSet { bits: 1 << station }
    }

    /// Whether no station is in the set.
    pub fn is_empty(self) -> bool
        ensures { result ≡ (self.bits == 0) }
    {
        self.bits == 0
    }

    /// Whether the station is in the set.
    pub fn has(self, station: u8) -> bool
        requires { station < 8 }
        ensures { result ≡ isin station self.bits }
    {
        (self.bits >> station) % 2 == 1
    }

    /// The set and the station.
    #[tactic(auto, using(crate::proofs::Bits::joins))]
    pub fn with(self, station: u8) -> StationSet
        requires { station < 8 }
        ensures exact { result.bits ≡ joined self.bits station }
        ensures members { (k : ℕ) → k < 8 → isin k result.bits ≡ (if nat_eq k station then true else isin k self.bits) }
    {
        StationSet {
            bits: self.bits | StationSet::only(station).bits,
        }
    }

    /// The set but for the station.
    #[tactic(auto, using(crate::proofs::Bits::leaves))]
    pub fn without(self, station: u8) -> StationSet
        requires { station < 8 }
        ensures exact { result.bits ≡ left self.bits station }
        ensures members { (k : ℕ) → k < 8 → isin k result.bits ≡ (if nat_eq k station then false else isin k self.bits) }
    {
        StationSet {
            bits: self.bits & !StationSet::only(station).bits,
        }
    }

    /// How many stations are in the set: the ones among its bits.
    #[tactic(auto, using(crate::proofs::Bits::counted))]
    pub fn count(self) -> u32
        ensures { result ≡ length (members self.bits) }
    {
        self.bits.count_ones()
    }
}

/// The members of a set that are still to come, lowest first.
#[derive(Clone, Debug, Drop)]
pub struct Members {
    pub rest: StationSet,
}

impl IntoIterator for StationSet {
    type Item = u8;

    type IntoIter = Members;

    ghost into_iter_gives = { λ set it. it.rest ≡ set };

    fn into_iter(self) -> Members {
        Members { rest: self }
    }
}

impl Iterator for Members {
    type Item = u8;

    ghost next_gives = { YieldsFirst (λ it. members it.rest.bits) };

    ghost remaining = { item_count (λ it. members it.rest.bits) };

    #[tactic(auto, using(crate::proofs::Bits::lowest_first, crate::proofs::Bits::no_members))]
    fn next(&mut self) -> Option<u8> {
        if self.rest.is_empty() {
            return None;
        }
        let lowest = self.rest.bits.trailing_zeros() as u8;
        self.rest = self.rest.without(lowest);
        Some(lowest)
    }
}
