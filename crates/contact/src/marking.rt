//! Which places are marked, and how marks spread over a configuration, round by round.

ghost use Rattle.std.specs.Prelude.{◌≡◌, ℕ, false, length, not, position};

use model::limits::MOST_PLACES;
use site::Site;

/// A site, the places of carriers there, that of carrier 1 first, and which places are marked.
#[derive(Drop)]
pub(crate) struct Marking<'a, S> {
    site: &'a S,
    configuration: &'a [usize],
    // An array, and no set on the heap: nothing here can fail for want of memory.
    marks: [bool; MOST_PLACES],
}

impl<'a, S: Site> Marking<'a, S> {
    ghost use Rattle.contact.specs.Marking.{IsAfter, Spreads, is_heard, is_marked, is_near, is_relay};

    /// The marking before the first round: nothing is marked.
    pub(crate) fn new(site: &'a S, configuration: &'a [usize]) -> Self
        ensures first { IsAfter S.Site.meaning site.now configuration.now 0 result }
        ensures unmarked { (p : ℕ) → is_marked result p ≡ false }
    {
        Marking {
            site,
            configuration,
            marks: [false; MOST_PLACES],
        }
    }

    /// Is p marked?
    pub(crate) fn is_marked(&self, p: usize) -> bool
        ensures { result ≡ is_marked self.now p }
    {
        matches!(self.marks.get(p), Some(true))
    }

    /// Is q marked, and in contact with p?
    fn is_relay(&self, q: usize, p: usize) -> bool
        ensures { result ≡ is_relay S.Site.meaning self.now q p }
    {
        self.is_marked(q) && self.site.in_contact(q, p)
    }

    /// Is the marked place of a carrier in contact with p?
    fn is_heard(&self, p: usize) -> bool
        ensures { result ≡ is_heard S.Site.meaning self.now p }
    {
        self.configuration.iter().any(|&q| self.is_relay(q, p))
    }

    /// Is the place p in contact with the base, or with the marked place of a carrier?
    fn is_near(&self, p: usize) -> bool
        ensures { result ≡ is_near S.Site.meaning self.now p }
    {
        self.site.in_contact(self.site.base(), p) || self.is_heard(p)
    }

    /// One round: marks the carriers' places that were near as it began, and answers whether any of them was not marked before.
    // A flag, and no Option of a new marking: to copy the marks out of each round took up to twice the time, and six times with one carrier.
    pub(crate) fn spread(&mut self) -> bool
        ensures { Spreads S.Site.meaning self.old self.new result }
    {
        let mut marks = self.marks;
        let mut has_more = false;
        for &p in self.configuration {
            if matches!(marks.get(p), Some(false)) && self.is_near(p) {
                marks[p] = true;
                has_more = true;
            }
        }
        if has_more {
            self.marks = marks;
        }
        has_more
    }

    /// All rounds, from the marking before the first one: of the carriers' places, those of the carriers that are reached are marked.
    pub(crate) fn spread_fully(&mut self)
        requires { IsAfter S.Site.meaning self.old.site.now self.old.configuration.now 0 self.old }
        ensures { IsAfter S.Site.meaning self.old.site.now self.old.configuration.now (length self.old.configuration.now) self.new }
    {
        // As many rounds as there are carriers are enough. A `while` would need a measure, and a clause of `spread` for it.
        for _round in 0..self.configuration.len() {
            if !self.spread() {
                break;
            }
        }
    }

    /// The index of the first carrier whose place is not marked.
    pub(crate) fn first_unmarked(&self) -> Option<usize>
        ensures { result ≡ position (λ p. not (is_marked self.now p)) self.now.configuration.now }
    {
        self.configuration.iter().position(|&p| !self.is_marked(p))
    }

    /// The index of the first carrier whose place is marked and in contact with p.
    pub(crate) fn first_heard(&self, p: usize) -> Option<usize>
        ensures { result ≡ position (λ q. is_relay S.Site.meaning self.now q p) self.now.configuration.now }
    {
        self.configuration.iter().position(|&q| self.is_relay(q, p))
    }
}
