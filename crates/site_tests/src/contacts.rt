//! Contact of configurations.
use contact::{is_connected, is_reached, lost_carrier, relay_of};
use model::refusal::Refusal;
use model::relay::Relay;
use site::{Hall, PairSite, Site};
use std::test::Fail;

/// Eight cells in a row, each heard by its neighbours. The base is the first.
fn row() -> Result<Hall, Refusal> {
    Hall::new(1, 8, 1, 0)
}

#[test]
fn through_the_others(rt: HostRuntime) -> Result<(), Fail> {
    let site = row()?;
    let chain = [3, 1, 2];
    assert!(rt; is_connected(&site, &chain));
    assert_eq!(rt; lost_carrier(&site, &chain), None);
    assert!(rt; is_reached(&site, &chain, 1));
    assert_eq!(rt; relay_of(&site, &chain, 1), Some(Relay::Carrier(3)));
    assert_eq!(rt; relay_of(&site, &chain, 2), Some(Relay::Base));
    assert_eq!(rt; relay_of(&site, &chain, 3), Some(Relay::Carrier(2)));
    Ok(())
}

#[test]
fn the_lowest_that_is_lost(rt: HostRuntime) -> Result<(), Fail> {
    let site = row()?;
    let broken = [1, 4, 3, 6];
    assert!(rt; !is_connected(&site, &broken));
    assert_eq!(rt; lost_carrier(&site, &broken), Some(2));
    assert!(rt; is_reached(&site, &broken, 1));
    assert!(rt; !is_reached(&site, &broken, 2));
    assert!(rt;
        !is_reached(&site, &broken, 3),
        "carriers 2 and 3 hear each other, and nobody else"
    );
    assert_eq!(rt; relay_of(&site, &broken, 3), None);
    Ok(())
}

#[test]
fn one_gap_cuts_off_the_rest(rt: HostRuntime) -> Result<(), Fail> {
    let site = row()?;
    assert_eq!(rt; lost_carrier(&site, &[0, 1, 2, 3, 4, 5, 6, 7]), None);
    assert_eq!(rt; lost_carrier(&site, &[7, 6, 5, 4, 3, 2, 1]), None);
    assert_eq!(rt; lost_carrier(&site, &[0, 1, 2, 4, 5, 6, 7]), Some(4));
    Ok(())
}

#[test]
fn the_shorter_chain_and_the_lower_number(rt: HostRuntime) -> Result<(), Fail> {
    let mut site = PairSite::new(5, 0)?;
    for (p, q) in [(0, 1), (0, 2), (1, 3), (2, 4), (3, 4)] {
        site.add_contact(p, q)?;
    }
    assert_eq!(rt; relay_of(&site, &[3, 2, 1, 4], 4), Some(Relay::Carrier(2)));
    site.add_contact(1, 4)?;
    assert_eq!(rt; relay_of(&site, &[3, 2, 1, 4], 4), Some(Relay::Carrier(2)));
    assert_eq!(rt; relay_of(&site, &[3, 1, 2, 4], 4), Some(Relay::Carrier(2)));
    Ok(())
}

#[test]
fn places_that_are_shared(rt: HostRuntime) -> Result<(), Fail> {
    let site = row()?;
    assert_eq!(rt; lost_carrier(&site, &[2, 2, 1, 1]), None);
    assert_eq!(rt; lost_carrier(&site, &[1, 3, 3]), Some(2));
    Ok(())
}

#[test]
fn numbers_that_are_none(rt: HostRuntime) -> Result<(), Fail> {
    let site = row()?;
    assert!(rt;
        is_connected(&site, &[]),
        "nobody is lost where there is nobody"
    );
    assert_eq!(rt; lost_carrier(&site, &[8]), Some(1));
    assert_eq!(rt; lost_carrier(&site, &[0, 256]), Some(2));
    assert_eq!(rt; lost_carrier(&site, &[0, 1000000]), Some(2));
    assert!(rt; !is_reached(&site, &[0, 1], 0));
    assert!(rt; !is_reached(&site, &[0, 1], 3));
    assert_eq!(rt; relay_of(&site, &[0, 1], 0), None);
    assert_eq!(rt; relay_of(&site, &[0, 1], 3), None);
    Ok(())
}
