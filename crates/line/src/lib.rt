// Messages between stations, and what a line of them is.
#![tactic(auto)]

mod fault;
mod header;
mod kind;
mod line;
mod message;
mod pair;
mod refusal;

pub use fault::{LineFault, Misfit};
pub use header::Header;
pub use kind::Kind;
pub use line::{Line, post_all};
pub use message::Message;
pub use pair::Pair;
pub use refusal::{Layer, Place, Refusal, RowId};
