//! Halls.
use model::refusal::Refusal;
use site::{Hall, Site};
use std::test::Fail;

#[test]
fn one_cell(rt: HostRuntime) -> Result<(), Fail> {
    let hall = Hall::new(1, 1, 0, 0)?;
    assert_eq!(rt; hall.places(), 1);
    assert!(rt; hall.is_open(0));
    assert!(rt; hall.has_move(0, 0));
    assert!(rt; hall.in_contact(0, 0));
    assert!(rt; !hall.is_open(1));
    assert!(rt; !hall.in_contact(1, 1));
    Ok(())
}

#[test]
fn most_cells(rt: HostRuntime) -> Result<(), Fail> {
    let hall = Hall::new(16, 16, 30, 255)?;
    assert_eq!(rt; hall.places(), 256);
    assert_eq!(rt; hall.base(), 255);
    assert!(rt; hall.is_open(255));
    assert!(rt; !hall.is_open(256));
    assert!(rt; hall.in_contact(0, 255));
    Ok(())
}

#[test]
fn out_of_range(rt: HostRuntime) {
    let refused = Some(Refusal::NumberOutOfRange);
    assert_eq!(rt; Hall::new(0, 1, 0, 0).err(), refused);
    assert_eq!(rt; Hall::new(17, 1, 0, 0).err(), refused);
    assert_eq!(rt; Hall::new(1, 0, 0, 0).err(), refused);
    assert_eq!(rt; Hall::new(1, 17, 0, 0).err(), refused);
    assert_eq!(rt; Hall::new(1, 1, 31, 0).err(), refused);
    assert_eq!(rt; Hall::new(2, 3, 0, 6).err(), refused);
}

#[test]
fn moves_to_the_eight_around(rt: HostRuntime) -> Result<(), Fail> {
    let hall = Hall::new(3, 4, 0, 0)?;
    assert_eq!(rt; (0..12).filter(|q| hall.has_move(5, *q)).count(), 9);
    assert!(rt; hall.has_move(5, 10));
    assert!(rt; !hall.has_move(5, 7));
    assert!(rt; !hall.has_move(0, 8));
    assert!(rt;
        !hall.has_move(3, 4),
        "the end of a row and the beginning of the next"
    );
    Ok(())
}

#[test]
fn contact_within_the_radius(rt: HostRuntime) -> Result<(), Fail> {
    let hall = Hall::new(6, 6, 5, 0)?;
    assert!(rt; hall.in_contact(0, 3 * 6 + 4));
    assert!(rt; hall.in_contact(0, 5));
    assert!(rt; !hall.in_contact(0, 4 * 6 + 4));
    let alone = Hall::new(6, 6, 0, 0)?;
    assert!(rt; alone.in_contact(7, 7));
    assert!(rt; !alone.in_contact(7, 8));
    Ok(())
}

#[test]
fn walls_are_closed(rt: HostRuntime) -> Result<(), Fail> {
    let mut hall = Hall::new(2, 2, 1, 0)?;
    hall.add_wall(0)?;
    hall.add_wall(1)?;
    assert!(rt; !hall.is_open(0), "the base may be a wall");
    assert!(rt; !hall.is_open(1));
    assert!(rt; hall.is_open(2));
    assert!(rt;
        hall.has_move(0, 3),
        "the cells beside a diagonal do not count"
    );
    assert_eq!(rt; hall.add_wall(1), Err(Refusal::GivenTwice));
    assert_eq!(rt; hall.add_wall(4), Err(Refusal::NumberOutOfRange));
    assert!(rt; hall.is_open(2));
    assert!(rt; hall.is_open(3));
    assert!(rt; !hall.is_open(4));
    Ok(())
}
