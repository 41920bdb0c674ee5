// Where a message comes from, and where it comes to.
ghost use Rattle.std.specs.Prelude.{◌<◌, ◌≢◌};

use steps::Site;

mod deliver;
pub mod methods;
mod receive;

/// The receiver's site, and the sender: another station.
#[derive(Clone, Copy)]
pub struct Incoming {
    pub site: Site,
    pub sender: u8,
    ghost sender_in: { sender < 8 },
    ghost apart: { (sender ≢ site.station) },
}
