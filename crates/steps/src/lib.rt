// The steps that a station's calls and deliveries are made of.
#![tactic(auto)]

mod away;
mod home;
mod post;
mod serve;
mod site;
mod text;

pub use home::{enqueue, take_back};
pub use serve::{Verdict, serve_queue};
pub use site::{Away, Site};
pub use text::Text;
