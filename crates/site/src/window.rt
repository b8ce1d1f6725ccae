//! Windows: temperature readings over a site.
ghost use Rattle.std.specs.Prelude.{◌≡◌, OnOk, OnErr};
ghost use Rattle.model.specs.Window.{no_readings, set_answer, with_reading};

use crate::Site;
use model::limits::{COOLEST_OPEN, HIGHEST_READING, LOWEST_READING, MOST_PLACES, WARMEST_OPEN};
use model::refusal::Refusal;

/// A site and the readings at its places, in tenths of a degree. A place is open in it exactly when it is open below and has a
/// reading from 50 to 300; all other answers are those below.
#[derive(Drop)]
pub struct Window<S: Site> {
    below: S,
    // An array, and no map on the heap: nothing here can fail for want of memory.
    readings: [Option<i16>; MOST_PLACES],
}

impl<S: Site> Window<S> {
    ghost use Rattle.site.specs.Windows.{below_of, readings_of};

    /// A window over the site, without readings: no place is open in it yet.
    pub fn new(below: S) -> Self
        ensures below { below_of result ≡ below }
        ensures readings { readings_of result ≡ no_readings }
    {
        Window {
            below,
            readings: [None; MOST_PLACES],
        }
    }

    /// Stores or replaces the reading at a place. A number that is no place, and a reading that is not from -400 to 600, are
    /// refused, and nothing changes.
    pub fn set(&mut self, place: usize, reading: i16) -> Result<(), Refusal>
        ensures answer { result ≡ set_answer (S.meaning (below_of self.old)) place reading }
        ensures below { below_of self.new ≡ below_of self.old }
        ensures readings { OnOk result (readings_of self.new ≡ with_reading place reading (readings_of self.old)) }
        ensures unchanged { OnErr result (readings_of self.new ≡ readings_of self.old) }
    {
        if place >= self.below.places() || !(LOWEST_READING..=HIGHEST_READING).contains(&reading) {
            return Err(Refusal::NoSuchPlaceOrReading);
        }
        self.readings[place] = Some(reading);
        Ok(())
    }
}

impl<S: Site> Site for Window<S> {
    ghost use Rattle.site.specs.Windows.{window_lawful, window_meaning};

    ghost meaning = { window_meaning S.meaning };

    fn places(&self) -> usize {
        self.below.places()
    }

    fn base(&self) -> usize {
        self.below.base()
    }

    fn is_open(&self, p: usize) -> bool {
        self.below.is_open(p) && matches!(self.readings[p], Some(COOLEST_OPEN..=WARMEST_OPEN))
    }

    fn has_move(&self, p: usize, q: usize) -> bool {
        self.below.has_move(p, q)
    }

    fn in_contact(&self, p: usize, q: usize) -> bool {
        self.below.in_contact(p, q)
    }

    ghost lawful = { window_lawful S.meaning S.lawful };
}
