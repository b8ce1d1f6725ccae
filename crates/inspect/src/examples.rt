//! The example sites.
ghost use Rattle.std.specs.Prelude.{◌≡◌, IfOk};
ghost use Rattle.inspect.specs.Examples.{walled_hall};
ghost use Rattle.model.specs.Examples.{six_places};
ghost use Rattle.site.specs.Halls.{grid};
ghost use Rattle.site.specs.PairSites.{network};
ghost use Rattle.site.specs.Windows.{below_of};

use model::refusal::Refusal;
use site::{Hall, PairSite, Site, Window};
use std::ops::Range;

/// Six places: the base apart, and two galleries of places 1 to 3 and 4 to 5.
fn six_places() -> Result<PairSite, Refusal>
    ensures { IfOk result (λ s. network s ≡ six_places) }
{
    let mut site = PairSite::new(6, 0)?;
    for (from, to) in [(1, 2), (2, 3), (4, 5)] {
        site.add_move(from, to)?;
    }
    for (p, q) in [(0, 4), (0, 5), (1, 4), (2, 4), (3, 5)] {
        site.add_contact(p, q)?;
    }
    Ok(site)
}

/// A hall of 3 rows and 6 columns with three walls in its middle row, in which carriers hear each other two cells away. The base
/// is the corner at row 0, column 0.
fn hall() -> Result<Hall, Refusal>
    ensures { IfOk result (λ h. grid h ≡ walled_hall) }
{
    let mut hall = Hall::new(3, 6, 2, 0)?;
    for wall in [8, 9, 10] {
        hall.add_wall(wall)?;
    }
    Ok(hall)
}

/// A window over the site, with one reading at all of these places.
fn warmed<S: Site + Drop>(site: S, places: Range<usize>, reading: i16) -> Result<Window<S>, Refusal>
    ensures { IfOk result (λ w. below_of w ≡ site) }
{
    let mut window = Window::new(site);
    for place in places {
        window.set(place, reading)?;
    }
    Ok(window)
}

/// The six places, with a reading of 12.0 degrees at every place of the galleries.
pub fn galleries() -> Result<Window<PairSite>, Refusal>
    ensures { IfOk result (λ w. network (below_of w) ≡ six_places) }
{
    warmed(six_places()?, 1..6, 120)
}

/// The hall, with a reading of 18.5 degrees at every place.
pub fn warm_hall() -> Result<Window<Hall>, Refusal>
    ensures { IfOk result (λ w. grid (below_of w) ≡ walled_hall) }
{
    let hall = hall()?;
    let places = 0..hall.places();
    warmed(hall, places, 185)
}
