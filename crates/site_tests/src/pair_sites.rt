//! Pair sites.
use model::refusal::Refusal;
use site::{PairSite, Site};
use std::test::Fail;

/// For how many pairs of places below 8, either way round and with itself, the answer is yes.
fn count<F: Fn(usize, usize) -> bool>(answer: F) -> usize
    requires { F.IsAlwaysCallable answer }
{
    // By `fold`, since nothing says of the counts that `sum` of them fits.
    (0..8)
        .map(|p| (0..8).filter(|q| answer(p, *q)).count())
        .fold(0, |yes: usize, more| yes.saturating_add(more))
}

#[test]
fn one_place(rt: HostRuntime) -> Result<(), Fail> {
    let site = PairSite::new(1, 0)?;
    assert_eq!(rt; site.places(), 1);
    assert_eq!(rt; site.base(), 0);
    assert!(rt; site.is_open(0));
    assert!(rt; site.has_move(0, 0));
    assert!(rt; site.in_contact(0, 0));
    assert!(rt; !site.is_open(1));
    assert!(rt; !site.has_move(1, 1));
    assert!(rt; !site.in_contact(0, 1));
    Ok(())
}

#[test]
fn most_places(rt: HostRuntime) -> Result<(), Fail> {
    let mut site = PairSite::new(256, 255)?;
    site.add_move(255, 0)?;
    site.add_contact(254, 255)?;
    assert_eq!(rt; site.places(), 256);
    assert_eq!(rt; site.base(), 255);
    assert!(rt; site.has_move(0, 255));
    assert!(rt; !site.has_move(254, 255));
    assert!(rt; site.in_contact(255, 254));
    assert!(rt; !site.in_contact(0, 255));
    assert!(rt; site.is_open(255));
    assert!(rt; !site.is_open(256));
    assert!(rt; !site.has_move(256, 256));
    Ok(())
}

#[test]
fn out_of_range(rt: HostRuntime) {
    let refused = Some(Refusal::NumberOutOfRange);
    assert_eq!(rt; PairSite::new(0, 0).err(), refused);
    assert_eq!(rt; PairSite::new(257, 0).err(), refused);
    assert_eq!(rt; PairSite::new(6, 6).err(), refused);
}

#[test]
fn refused_pairs_change_nothing(rt: HostRuntime) -> Result<(), Fail> {
    let mut site = PairSite::new(6, 0)?;
    site.add_move(1, 2)?;
    assert_eq!(rt; count(|p, q| site.has_move(p, q)), 8);
    assert_eq!(rt; count(|p, q| site.in_contact(p, q)), 6);
    assert_eq!(rt; site.add_move(1, 2), Err(Refusal::GivenTwice));
    assert_eq!(rt; site.add_move(2, 1), Err(Refusal::GivenTwice));
    assert_eq!(rt; site.add_move(3, 3), Err(Refusal::GivenTwice));
    assert_eq!(rt; site.add_move(5, 6), Err(Refusal::NumberOutOfRange));
    assert_eq!(rt; site.add_move(6, 5), Err(Refusal::NumberOutOfRange));
    assert_eq!(rt; site.add_move(6, 6), Err(Refusal::NumberOutOfRange));
    assert_eq!(rt; site.add_contact(4, 4), Err(Refusal::GivenTwice));
    assert_eq!(rt; count(|p, q| site.has_move(p, q)), 8);
    assert_eq!(rt; count(|p, q| site.in_contact(p, q)), 6);
    Ok(())
}

#[test]
fn words_do_not_mix(rt: HostRuntime) -> Result<(), Fail> {
    let mut site = PairSite::new(6, 0)?;
    site.add_move(1, 2)?;
    site.add_contact(1, 2)?;
    site.add_contact(0, 5)?;
    assert_eq!(rt; count(|p, q| site.has_move(p, q)), 8);
    assert_eq!(rt; count(|p, q| site.in_contact(p, q)), 10);
    assert!(rt; !site.has_move(0, 5));
    assert!(rt; site.in_contact(5, 0));
    Ok(())
}

#[test]
fn numbers_of_refusals(rt: HostRuntime) {
    assert_eq!(rt; Refusal::NumberOutOfRange.number(), 5);
    assert_eq!(rt; Refusal::GivenTwice.number(), 6);
    assert_eq!(rt; Refusal::NoSuchPlaceOrReading.number(), 16);
}

#[test]
fn refusals_in_words(rt: HostRuntime) -> Result<(), Fail> {
    let text = format!(in rt.alloc(); "{}", Refusal::NumberOutOfRange)?;
    assert_eq!(rt; text.as_str(), "refused by 5: a number is out of its range");
    Ok(())
}
