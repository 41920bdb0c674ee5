// What a station notes of a page.
#![tactic(auto)]

mod queue;
mod row;
mod set;

pub use queue::{Entry, Queue};
pub use row::{Access, CopyKind, Desk, Mode, Row, Standing};
pub use set::{Members, StationSet};
