// Where a step is made.
ghost use Rattle.std.specs.Prelude.{◌≡◌, ◌<◌, ◌≢◌};
ghost use Rattle.line.specs.Refusals.{pair_of, row_id};

use line::{Pair, RowId};

/// The station whose row it is, the page's home, and the page.
// Row, site, text and line stay parameters of each step. A struct of them can carry that the home's row is sound, but
// putting, looking and flushing ask no such thing and a delivery has its site already: it would serve two calls in five,
// and each of its methods would have to promise that it still holds the same row and site.
#[derive(Clone, Copy)]
pub struct Site {
    pub station: u8,
    pub home: u8,
    pub page: u8,
    ghost station_in: { station < 8 },
    ghost home_in: { home < 8 },
    ghost page_in: { page < 16 },
}

/// A site that is not the page's home.
#[derive(Clone, Copy)]
pub struct Away {
    pub site: Site,
    ghost away: { (site.station ≢ site.home) },
}

impl Site {
    /// The row that the station notes of the page.
    pub fn row(self) -> RowId
        ensures { result ≡ row_id self.station self.page }
    {
        RowId {
            station: self.station,
            page: self.page,
        }
    }

    /// Who sends, and who receives, what the station posts to the page's home.
    pub fn to_home(self) -> Pair
        ensures { result ≡ pair_of self.station self.home }
    {
        Pair {
            sender: self.station,
            receiver: self.home,
        }
    }

    /// Who sends, and who receives, what the page's home posts to a station.
    pub fn from_home(self, station: u8) -> Pair
        ensures { result ≡ pair_of self.home station }
    {
        Pair {
            sender: self.home,
            receiver: station,
        }
    }
}
