//! Pair sites: networks of galleries, pair by pair.
ghost use Rattle.std.specs.Prelude.{◌≡◌, ◌<◌, ◌≤◌, OnOk, OnErr};
ghost use Rattle.model.specs.Limits.{most_places};
ghost use Rattle.model.specs.PairSite.{joined, no_pairs, pair_answer, with_contact, with_move, with_pair};

use crate::Site;
use model::limits::MOST_PLACES;
use model::refusal::Refusal;

/// Which pairs of places are listed under one word. A pair stands in the row of its lower place and the column of its higher one.
#[derive(Drop)]
struct PairTable {
    // An array, and no set on the heap: nothing here can fail for want of memory.
    marks: [[bool; MOST_PLACES]; MOST_PLACES],
}

impl PairTable {
    ghost use Rattle.site.specs.PairSites.{pairs_of};

    /// No pair yet.
    fn new() -> Self
        ensures { pairs_of result ≡ no_pairs }
    {
        PairTable {
            marks: [[false; MOST_PLACES]; MOST_PLACES],
        }
    }

    /// Is the pair listed?
    fn has(&self, p: usize, q: usize) -> bool
        ensures { result ≡ pairs_of self.now p q }
    {
        self.marks
            .get(p.min(q))
            .is_some_and(|row| row.get(p.max(q)) == Some(&true))
    }

    // The number of places is given to the next two, and not kept here: a pair site would have it three times.

    /// Is p joined with q, in a site of so many places: are they the same place, or a listed pair?
    fn joins(&self, places: usize, p: usize, q: usize) -> bool
        ensures { result ≡ joined places (pairs_of self.now) p q }
    {
        p < places && q < places && (p == q || self.has(p, q))
    }

    /// Lists the pair of p and q, in a site of so many places. A number that is no place, a place paired with itself and a pair
    /// that is listed already are refused, and nothing changes.
    fn add(&mut self, places: usize, p: usize, q: usize) -> Result<(), Refusal>
        requires { places ≤ most_places }
        ensures answer { result ≡ pair_answer places (pairs_of self.old) p q }
        ensures after { OnOk result (pairs_of self.new ≡ with_pair p q (pairs_of self.old)) }
        ensures unchanged { OnErr result (pairs_of self.new ≡ pairs_of self.old) }
    {
        if p >= places || q >= places {
            return Err(Refusal::NumberOutOfRange);
        }
        // The row is borrowed by itself, so that its type tells the proof its length.
        let row = &mut self.marks[p.min(q)];
        let mark = &mut row[p.max(q)];
        if p == q || *mark {
            return Err(Refusal::GivenTwice);
        }
        *mark = true;
        Ok(())
    }
}

/// A site of numbered places with exactly the listed moves and contacts, besides those of a place with itself. All are open.
#[derive(Drop)]
pub struct PairSite {
    places: usize,
    base: usize,
    moves: PairTable,
    contacts: PairTable,
    ghost few: { places ≤ most_places },
    ghost inside: { base < places },
}

impl PairSite {
    ghost use Rattle.site.specs.PairSites.{Made, network};

    /// A site of so many places, 1 to 256, with this base and no listed pairs. Other numbers are refused.
    pub fn new(places: usize, base: usize) -> Result<Self, Refusal>
        ensures { Made places base result }
    {
        if places > MOST_PLACES || base >= places {
            return Err(Refusal::NumberOutOfRange);
        }
        Ok(PairSite {
            places,
            base,
            moves: PairTable::new(),
            contacts: PairTable::new(),
        })
    }

    // Two calls, and not one that is told which table: it would be no shorter, and who calls it would have one argument more.

    /// Lists a move between p and q. A refusal changes nothing.
    pub fn add_move(&mut self, p: usize, q: usize) -> Result<(), Refusal>
        ensures answer { result ≡ pair_answer (network self.old).places (network self.old).moves p q }
        ensures after { OnOk result (network self.new ≡ with_move p q (network self.old)) }
        ensures unchanged { OnErr result (network self.new ≡ network self.old) }
    {
        self.moves.add(self.places, p, q)
    }

    /// Lists a contact between p and q. A refusal changes nothing.
    pub fn add_contact(&mut self, p: usize, q: usize) -> Result<(), Refusal>
        ensures answer { result ≡ pair_answer (network self.old).places (network self.old).contacts p q }
        ensures after { OnOk result (network self.new ≡ with_contact p q (network self.old)) }
        ensures unchanged { OnErr result (network self.new ≡ network self.old) }
    {
        self.contacts.add(self.places, p, q)
    }
}

impl Site for PairSite {
    ghost use Rattle.site.specs.PairSites.{pair_lawful, pair_meaning};

    ghost meaning = { pair_meaning };

    fn places(&self) -> usize {
        self.places
    }

    fn base(&self) -> usize {
        self.base
    }

    fn is_open(&self, p: usize) -> bool {
        p < self.places
    }

    // The trait asks two questions, and each has its table, as the two calls above.

    fn has_move(&self, p: usize, q: usize) -> bool {
        self.moves.joins(self.places, p, q)
    }

    fn in_contact(&self, p: usize, q: usize) -> bool {
        self.contacts.joins(self.places, p, q)
    }

    ghost lawful = { pair_lawful };
}
