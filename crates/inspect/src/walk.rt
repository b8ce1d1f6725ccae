//! Walking a plan: a configuration for each moment.
ghost use Rattle.std.specs.Prelude.{◌≡◌, ◌*◌, ◌^◌, ◌<◌, not};
ghost use Rattle.model.specs.Contact.{is_connected};
ghost use Rattle.inspect.specs.Breaks.{FirstBreak};

use contact::{is_connected, lost_carrier, relay_of};
use model::relay::Relay;
use site::Site;
use std::fmt;

/// A plan, which is a configuration for each moment, to be walked through a site.
#[derive(Drop)]
pub struct Walk<'a, S: Site, const N: usize> {
    pub site: &'a S,
    pub plan: &'a [[usize; N]],
    // A configuration fits in memory, as all that is lent as a slice does. An array behind a field does not say it by its type.
    ghost in_memory: { N * 8 < 2 ^ 63 },
}

impl<S: Site, const N: usize> Walk<'_, S, N> {
    /// The first moment at which the plan is out of contact.
    fn first_break(&self) -> Option<usize>
        ensures { FirstBreak (S.Site.meaning self.now.site.now) self.now.plan.now result }
    {
        self.plan.iter().position(
            |configuration: &[usize; N]| -> bool
                ensures { result ≡ not (is_connected (S.Site.meaning self.entry.now.site.now) configuration.now) }
            { !is_connected(self.site, configuration) },
        )
    }
}

impl<S: Site, const N: usize> fmt::Display for Walk<'_, S, N> {
    /// Every moment of the plan, and where it is out of contact first.
    fn fmt<W: fmt::Write>(&self, f: &mut fmt::Formatter<W>) -> fmt::Result {
        let before = self.plan.iter().take(1).chain(self.plan);
        for (number, (before, configuration)) in before.zip(self.plan).enumerate() {
            let moment = Moment {
                site: self.site,
                number,
                before,
                configuration,
            };
            writeln!(f, "{moment}")?;
        }
        match self.first_break() {
            None => write!(f, "  in contact at every moment"),
            Some(moment) => write!(f, "  out of contact first at moment {moment}"),
        }
    }
}

/// One moment: where the carriers stand, and where they stood before.
#[derive(Drop)]
struct Moment<'a, S: Site> {
    site: &'a S,
    number: usize,
    before: &'a [usize],
    configuration: &'a [usize],
}

impl<S: Site> fmt::Display for Moment<'_, S> {
    /// Whether it is in contact, and where each carrier stands.
    fn fmt<W: fmt::Write>(&self, f: &mut fmt::Formatter<W>) -> fmt::Result {
        write!(f, "  moment {}: ", self.number)?;
        match lost_carrier(self.site, self.configuration) {
            None => write!(f, "in contact")?,
            Some(carrier) => write!(f, "out of contact, carrier {carrier} is lost")?,
        }
        for (carrier, (&from, &place)) in (1..).zip(self.before.iter().zip(self.configuration)) {
            let standing = Standing {
                carrier,
                place,
                relay: relay_of(self.site, self.configuration, carrier),
                is_open: self.site.is_open(place),
                no_move_from: (!self.site.has_move(from, place)).then_some(from),
            };
            write!(f, "\n    {standing}")?;
        }
        Ok(())
    }
}

/// A carrier at a place, and what is to be said of it there.
#[derive(Drop)]
struct Standing {
    carrier: usize,
    place: usize,
    relay: Option<Relay>,
    is_open: bool,
    /// The place where it stood before, if no move leads from there.
    no_move_from: Option<usize>,
}

impl fmt::Display for Standing {
    fn fmt<W: fmt::Write>(&self, f: &mut fmt::Formatter<W>) -> fmt::Result {
        write!(f, "carrier {} at place {}, ", self.carrier, self.place)?;
        match self.relay {
            None => write!(f, "not reached")?,
            Some(Relay::Base) => write!(f, "straight")?,
            Some(Relay::Carrier(other)) => write!(f, "through carrier {other}")?,
        }
        if !self.is_open {
            write!(f, " (closed)")?;
        }
        if let Some(from) = self.no_move_from {
            write!(f, " (no move from {from})")?;
        }
        Ok(())
    }
}
