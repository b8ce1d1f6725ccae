//! Contact of a configuration: a slice of places, that of carrier 1 first. Who is reached from the base, straight or through the
//! others, who is lost, and through whom a carrier is reached. Nothing here allocates.
#![tactic(auto)]

ghost use Rattle.std.specs.Prelude.{◌≡◌};
ghost use Rattle.model.specs.Contact.{is_connected, is_reached, lost};
ghost use Rattle.model.specs.Relay.{RelayOf};
ghost use Rattle.contact.specs.Carrier.{find_place};

use marking::Marking;
use model::relay::Relay;
use site::Site;

mod marking;

/// The place of the carrier of this number, counted from 1, if there is one.
fn find_place(configuration: &[usize], carrier: usize) -> Option<usize>
    ensures { result ≡ find_place configuration.now carrier }
{
    configuration.get(carrier.checked_sub(1)?).copied()
}

// The calls take a site and a slice, as the definitions do: a struct of both would have to be made before each of them.

/// Is the carrier of this number, counted from 1, reached from the base? A number that is no carrier's gets no.
pub fn is_reached<S: Site>(site: &S, configuration: &[usize], carrier: usize) -> bool
    ensures { result ≡ is_reached (S.Site.meaning site.now) configuration.now carrier }
{
    let Some(place) = find_place(configuration, carrier) else {
        return false;
    };
    let mut marking = Marking::new(site, configuration);
    marking.spread_fully();
    marking.is_marked(place)
}

/// The lost carrier: the lowest-numbered one that is not reached from the base, straight or through the others.
pub fn lost_carrier<S: Site>(site: &S, configuration: &[usize]) -> Option<usize>
    ensures { result ≡ lost (S.Site.meaning site.now) configuration.now }
{
    let mut marking = Marking::new(site, configuration);
    marking.spread_fully();
    marking.first_unmarked().map(|i| i + 1)
}

/// Is the configuration in contact: is every carrier reached?
pub fn is_connected<S: Site>(site: &S, configuration: &[usize]) -> bool
    ensures { result ≡ is_connected (S.Site.meaning site.now) configuration.now }
{
    lost_carrier(site, configuration).is_none()
}

/// Whom the carrier of this number hears last on a shortest chain of contacts from the base; the lowest-numbered of several.
/// Nobody where it is not reached, or where the number is no carrier's.
pub fn relay_of<S: Site>(site: &S, configuration: &[usize], carrier: usize) -> Option<Relay>
    ensures { RelayOf (S.Site.meaning site.now) configuration.now carrier result }
{
    let place = find_place(configuration, carrier)?;
    if site.in_contact(site.base(), place) {
        return Some(Relay::Base);
    }
    let mut marking = Marking::new(site, configuration);
    // As many rounds as there are carriers are enough. A `while` would need a measure, and a clause of `spread` for it.
    for _round in 0..configuration.len() {
        if !marking.spread() {
            break;
        }
        if let Some(i) = marking.first_heard(place) {
            return Some(Relay::Carrier(i + 1));
        }
    }
    None
}
