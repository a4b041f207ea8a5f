// Packed drafts: what the bytes mean, what a strike does to them, and how many are taken.
use crate::support::{
    EQUAL, NOTHING, has_equal_numbers_less, has_three_of_two, pairings, shape, standing,
};
use draft::pairing::Pairing;
use draft::refusal::Refusal;
use draft::store::Store;
use std::test::Fail;
use stores::packed::Packed;

#[test]
fn the_bytes_4b_b4_allow_equal_numbers(rt: HostRuntime) -> Result<(), Fail> {
    let shape = shape(&[2, 2, 2])?;
    let mut bits = EQUAL;
    assert_eq!(rt; Packed::bytes(&shape), 2);
    let store = Packed::new(&shape, &mut bits);
    has_three_of_two(&rt, &store);
    has_equal_numbers_less(&rt, &store, NOTHING);
    assert_eq!(rt; standing(&store), 16);
    Ok(())
}

#[test]
fn a_strike_by_either_name_clears_one_bit(rt: HostRuntime) -> Result<(), Fail> {
    let shape = shape(&[2, 2, 2])?;
    let mut bits = EQUAL;
    let mut store = Packed::new(&shape, &mut bits);
    store.strike(Pairing::new(0, 0, 1, 0));
    has_equal_numbers_less(&rt, &store, Pairing::new(0, 0, 1, 0));
    assert_eq!(rt; bits, [0x0B, 0xB4]);
    let mut store = Packed::new(&shape, &mut bits);
    store.strike(Pairing::new(2, 1, 1, 1));
    store.strike(Pairing::new(2, 1, 1, 1));
    assert_eq!(rt; bits, [0x0B, 0xB0]);
    Ok(())
}

#[test]
fn a_strike_outside_the_shape_changes_nothing(rt: HostRuntime) -> Result<(), Fail> {
    let shape = shape(&[2, 2, 2])?;
    let mut bits = [0xFF, 0xFF];
    let mut store = Packed::new(&shape, &mut bits);
    store.strike(Pairing::new(0, 2, 1, 0));
    store.strike(Pairing::new(1, 0, 0, 2));
    store.strike(Pairing::new(0, 0, 3, 0));
    store.strike(Pairing::new(1, 0, 1, 1));
    store.strike(Pairing::new(usize::MAX, 0, 1, usize::MAX));
    assert_eq!(rt; bits, [0xFF, 0xFF]);
    Ok(())
}

#[test]
fn bits_of_two_choices_of_one_course_stay(rt: HostRuntime) -> Result<(), Fail> {
    let shape = shape(&[2, 2, 2])?;
    let mut bits = [0xFF, 0xFF, 0xFF];
    let mut store = Packed::new(&shape, &mut bits);
    for pairing in pairings() {
        store.strike(pairing);
    }
    assert_eq!(rt; standing(&store), 0);
    assert_eq!(rt; bits, [0x84, 0x03, 0xFF]);
    Ok(())
}

#[test]
fn a_bit_that_the_memory_lacks_counts_as_struck(rt: HostRuntime) -> Result<(), Fail> {
    let shape = shape(&[2, 2, 2])?;
    let mut bits = [0xFF];
    assert_eq!(rt; Packed::check(&shape, &bits), Err(Refusal::Memory));
    let mut store = Packed::new(&shape, &mut bits);
    assert!(rt; store.stands(Pairing::new(0, 1, 2, 0)));
    assert!(rt; !store.stands(Pairing::new(1, 0, 2, 0)));
    store.strike(Pairing::new(1, 0, 2, 0));
    assert_eq!(rt; standing(&store), 12);
    assert_eq!(rt; bits, [0xFF]);
    Ok(())
}

#[test]
fn the_opening_takes_as_many_bytes_as_the_bits_fill(rt: HostRuntime) -> Result<(), Fail> {
    let largest = shape(&[8; 24])?;
    assert_eq!(rt; Packed::bytes(&largest), 2292);
    assert_eq!(rt; Packed::check(&largest, &[0; 2292]), Ok(()));
    assert_eq!(rt; Packed::check(&largest, &[0; 2293]), Ok(()));
    assert_eq!(rt; Packed::check(&largest, &[0; 2291]), Err(Refusal::Memory));
    let smallest = shape(&[1, 1])?;
    assert_eq!(rt; Packed::check(&smallest, &[0]), Ok(()));
    assert_eq!(rt; Packed::check(&smallest, &[]), Err(Refusal::Memory));
    Ok(())
}
