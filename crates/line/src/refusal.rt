// What every refusal tells: its layer, its number and its place.
use crate::pair::Pair;

/// The part of the product that refuses.
#[derive(Clone, Copy, Debug, PartialEq, Eq)]
pub enum Layer {
    /// Reading a plan.
    Plan,
    /// The stations of a house.
    House,
    /// Lines and frames.
    Line,
}

/// A row: the station that notes it, and the page that it is about.
#[derive(Clone, Copy, Debug, PartialEq, Eq)]
pub struct RowId {
    pub station: u8,
    pub page: u8,
}

/// Where the fault is.
#[derive(Clone, Copy, Debug, PartialEq, Eq)]
pub enum Place {
    /// The byte at this offset.
    Offset(usize),
    /// A sender and a receiver.
    Pair(Pair),
    /// A station and a page.
    Row(RowId),
}

/// A refusal in the words of the documents. The code itself has an enum of faults for each layer: the number is for
/// whoever reads a listing, or is told in C.
#[derive(Clone, Copy, Debug, PartialEq, Eq)]
pub struct Refusal {
    pub layer: Layer,
    pub number: u8,
    pub place: Place,
}
