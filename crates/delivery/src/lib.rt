// What is delivered to one station.
#![tactic(auto)]

mod incoming;

pub use incoming::Incoming;
