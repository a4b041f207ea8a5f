// What-ifs over packed drafts and drafts by rule, one over the other.
use crate::support::{EQUAL, NOTHING, has_equal_numbers_less, has_three_of_two, shape, standing};
use draft::pairing::Pairing;
use draft::store::Store;
use layout::rows::{ChoiceRow, CourseRow};
use std::test::Fail;
use stores::packed::Packed;
use stores::piles::{stands_mirrored, tried};
use stores::rule::Rule;
use stores::what_if::WhatIf;

#[test]
fn a_pile_over_packed_bytes_leaves_them_as_they_were(rt: HostRuntime) -> Result<(), Fail> {
    let shape = shape(&[2, 2, 2])?;
    let mut bits = EQUAL;
    let mut lower = WhatIf::lay(Packed::new(&shape, &mut bits));
    lower.strike(Pairing::new(1, 0, 0, 0));
    let mut upper = WhatIf::lay(lower);
    has_three_of_two(&rt, &upper);
    has_equal_numbers_less(&rt, &upper, Pairing::new(0, 0, 1, 0));
    upper.strike(Pairing::new(0, 1, 2, 1));
    upper.strike(Pairing::new(0, 2, 1, 0));
    upper.strike(Pairing::new(1, 0, 1, 1));
    assert_eq!(rt; standing(&upper), 12);
    assert!(rt; !stands_mirrored(&upper, Pairing::new(0, 1, 2, 1)));
    let lower = upper.take_off();
    has_equal_numbers_less(&rt, &lower, Pairing::new(0, 0, 1, 0));
    let store = lower.take_off();
    has_equal_numbers_less(&rt, &store, NOTHING);
    assert_eq!(rt; bits, EQUAL);
    Ok(())
}

#[test]
fn a_strike_below_is_seen_above(rt: HostRuntime) -> Result<(), Fail> {
    let shape = shape(&[2, 2, 2])?;
    let mut bits = EQUAL;
    let mut upper = WhatIf::lay(Packed::new(&shape, &mut bits));
    upper.strike(Pairing::new(0, 1, 1, 1));
    let mut store = upper.take_off();
    store.strike(Pairing::new(0, 0, 1, 0));
    let upper = WhatIf::lay(store);
    has_equal_numbers_less(&rt, &upper, Pairing::new(0, 0, 1, 0));
    assert_eq!(rt; bits, [0x0B, 0xB4]);
    Ok(())
}

#[test]
fn a_what_if_over_a_rule_is_taken_off_again(rt: HostRuntime) -> Result<(), Fail> {
    let shape = shape(&[1, 2])?;
    let courses = [
        CourseRow {
            teacher: 1,
            choices: 1,
        },
        CourseRow {
            teacher: 2,
            choices: 2,
        },
    ];
    let choices = [
        ChoiceRow {
            evening: 0,
            room: 0,
        },
        ChoiceRow {
            evening: 0,
            room: 1,
        },
        ChoiceRow {
            evening: 1,
            room: 0,
        },
    ];
    let mut upper = WhatIf::lay(Rule::new(&shape, &courses, &choices));
    assert_eq!(rt; standing(&upper), 4);
    upper.strike(Pairing::new(1, 1, 0, 0));
    assert!(rt; !upper.stands(Pairing::new(0, 0, 1, 1)));
    assert_eq!(rt; standing(&upper), 2);
    let (store, stands) = tried(upper.take_off(), Pairing::new(0, 0, 1, 0));
    assert!(rt; !stands);
    assert_eq!(rt; standing(&store), 4);
    Ok(())
}

#[test]
fn marks_reach_the_last_pairing_of_the_largest_shape(rt: HostRuntime) -> Result<(), Fail> {
    let shape = shape(&[8; 24])?;
    let mut bits = [0xFF; 2292];
    let mut upper = WhatIf::lay(Packed::new(&shape, &mut bits));
    upper.strike(Pairing::new(23, 7, 22, 7));
    assert!(rt; !upper.stands(Pairing::new(22, 7, 23, 7)));
    assert!(rt; upper.stands(Pairing::new(22, 6, 23, 7)));
    assert!(rt; upper.stands(Pairing::new(22, 7, 23, 6)));
    assert!(rt; upper.stands(Pairing::new(0, 0, 1, 0)));
    assert!(rt; upper.take_off().stands(Pairing::new(22, 7, 23, 7)));
    Ok(())
}
