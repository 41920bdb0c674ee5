// The calls of one station on its own rows.
#![tactic(auto)]

mod fault;
mod finish;
mod room;
mod starts;
mod text;

pub use fault::StationFault;
pub use finish::{end, flush};
pub use room::check_room;
pub use starts::{Started, start};
pub use text::{look, put};
