//! Windows.
use model::refusal::Refusal;
use site::{Hall, PairSite, Site, Window};
use std::test::Fail;

/// A window over one place with this reading says whether it is open.
fn is_open_at(reading: i16) -> Result<bool, Refusal> {
    let mut window = Window::new(PairSite::new(1, 0)?);
    window.set(0, reading)?;
    Ok(window.is_open(0))
}

#[test]
fn readings_at_the_edges(rt: HostRuntime) {
    let refused = Err(Refusal::NoSuchPlaceOrReading);
    for (reading, answer) in [
        (49, Ok(false)),
        (50, Ok(true)),
        (300, Ok(true)),
        (301, Ok(false)),
        (-400, Ok(false)),
        (600, Ok(false)),
        (-50, Ok(false)),
        (-401, refused),
        (601, refused),
    ] {
        assert_eq!(rt; is_open_at(reading), answer, "at {reading}");
    }
}

#[test]
fn no_reading_is_closed(rt: HostRuntime) -> Result<(), Fail> {
    let window = Window::new(PairSite::new(2, 1)?);
    assert!(rt; !window.is_open(0));
    assert!(rt; !window.is_open(1));
    assert!(rt; !window.is_open(2));
    Ok(())
}

#[test]
fn refusals_keep_the_reading(rt: HostRuntime) -> Result<(), Fail> {
    let mut window = Window::new(PairSite::new(2, 0)?);
    window.set(1, 120)?;
    assert_eq!(rt; window.set(1, 601), Err(Refusal::NoSuchPlaceOrReading));
    assert_eq!(rt; window.set(1, -401), Err(Refusal::NoSuchPlaceOrReading));
    assert_eq!(rt; window.set(2, 120), Err(Refusal::NoSuchPlaceOrReading));
    assert_eq!(rt; window.set(256, 120), Err(Refusal::NoSuchPlaceOrReading));
    assert!(rt; !window.is_open(0));
    assert!(rt; window.is_open(1));
    assert!(rt; !window.is_open(2));
    window.set(1, 10)?;
    assert!(rt; !window.is_open(1), "a second reading replaces the first");
    Ok(())
}

#[test]
fn other_answers_are_those_below(rt: HostRuntime) -> Result<(), Fail> {
    let mut site = PairSite::new(4, 3)?;
    site.add_move(0, 1)?;
    site.add_contact(1, 2)?;
    let window = Window::new(&site);
    assert_eq!(rt; window.places(), 4);
    assert_eq!(rt; window.base(), 3);
    assert!(rt; window.has_move(1, 0));
    assert!(rt; !window.has_move(1, 2));
    assert!(rt; window.in_contact(2, 1));
    assert!(rt; !window.in_contact(0, 1));
    Ok(())
}

#[test]
fn walls_stay_closed(rt: HostRuntime) -> Result<(), Fail> {
    let mut hall = Hall::new(1, 2, 1, 0)?;
    hall.add_wall(0)?;
    let mut window = Window::new(&hall);
    window.set(0, 120)?;
    window.set(1, 120)?;
    assert!(rt; !window.is_open(0));
    assert!(rt; window.is_open(1));
    Ok(())
}

#[test]
fn window_over_a_window(rt: HostRuntime) -> Result<(), Fail> {
    let mut lower = Window::new(PairSite::new(4, 0)?);
    lower.set(1, 120)?;
    lower.set(2, 120)?;
    lower.set(3, 20)?;
    let mut upper = Window::new(lower);
    upper.set(1, 120)?;
    upper.set(2, 301)?;
    upper.set(3, 120)?;
    assert!(rt; !upper.is_open(0));
    assert!(rt; upper.is_open(1));
    assert!(rt; !upper.is_open(2));
    assert!(rt; !upper.is_open(3));
    Ok(())
}
