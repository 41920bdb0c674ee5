// The two kinds of line. Each says in its own words how it searches what it holds, by the same two chains: a common trait
// of places would be longer than the two lines that it would save.
#![tactic(auto)]

mod framed;
mod party;

pub use framed::FrameLine;
pub use party::PartyLine;
