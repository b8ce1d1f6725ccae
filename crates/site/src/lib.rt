//! Sites: the trait by which they are asked, and the three kinds, pair sites, halls and windows.
#![tactic(auto)]

pub mod hall;
pub mod pair_site;
pub mod window;

ghost use Rattle.std.specs.Prelude.{◌≡◌};
ghost use Rattle.model.specs.Site.{Site as Meaning, Lawful};

pub use hall::Hall;
pub use pair_site::PairSite;
pub use window::Window;

/// A site (a topological graph): numbered places with moves and contacts between them, one of them the base.
///
/// Each kind of site says what it means and shows that this is lawful, and its answers are those of its meaning. A number that is
/// no place gets no. No question alters the site, allocates, or takes more time in a larger site.
pub trait Site {
    ghost meaning: { Self → Meaning };

    /// How many places there are, numbered from 0.
    fn places(&self) -> usize
        ensures { result ≡ (meaning self.now).places };

    /// Which place is the base.
    fn base(&self) -> usize
        ensures { result ≡ (meaning self.now).base };

    /// May carriers stand at p?
    fn is_open(&self, p: usize) -> bool
        ensures { result ≡ (meaning self.now).is_open p };

    /// Does one step lead from p to q?
    fn has_move(&self, p: usize, q: usize) -> bool
        ensures { result ≡ (meaning self.now).has_move p q };

    /// Do carriers at p and q hear each other?
    fn in_contact(&self, p: usize, q: usize) -> bool
        ensures { result ≡ (meaning self.now).in_contact p q };

    // The law of every kind of site: what a site means is lawful.
    ghost lawful: { (s : Self) → Lawful (meaning s) };
}

/// A reference to a site is a site, so that one site can serve many readers.
impl<T: Site> Site for &T {
    ghost meaning = { λ r. T.meaning r.now };

    fn places(&self) -> usize {
        (**self).places()
    }

    fn base(&self) -> usize {
        (**self).base()
    }

    fn is_open(&self, p: usize) -> bool {
        (**self).is_open(p)
    }

    fn has_move(&self, p: usize, q: usize) -> bool {
        (**self).has_move(p, q)
    }

    fn in_contact(&self, p: usize, q: usize) -> bool {
        (**self).in_contact(p, q)
    }

    ghost lawful = { λ r. T.lawful r.now };
}
