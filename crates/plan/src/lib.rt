// Reading a plan: the stations' letters, and each page's home, length and text.
#![tactic(auto)]

mod fault;
mod list;
mod plan;
mod read;
mod reader;
#[cfg(test)]
mod tests;

pub use fault::PlanFault;
pub use list::FixedList;
pub use plan::{Page, Plan};
pub use read::read_plan;
