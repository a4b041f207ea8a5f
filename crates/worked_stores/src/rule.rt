// Drafts by rule: which choices clash, what the opening refuses, and what missing rows do.
use crate::support::{shape, standing};
use draft::pairing::Pairing;
use draft::refusal::Refusal;
use draft::shape::Shape;
use draft::store::Store;
use layout::rows::{ChoiceRow, CourseRow};
use layout::shapes::shape_of;
use reader::read::read;
use std::test::Fail;
use stores::rule::Rule;
use stores::what_if::WhatIf;

// A sheet of two courses: both have teacher 5.
const SHEET: [u8; 8] = [0x11, 0x11, 0x40, 0x48, 0x40, 0xA0, 0x40, 0x00];

// As in the other crate of tests; neither rests on the other.
fn course(teacher: u8, choices: u8) -> CourseRow {
    CourseRow { teacher, choices }
}

fn choice(evening: u8, room: u8) -> ChoiceRow {
    ChoiceRow { evening, room }
}

// Three courses; the first two have one teacher.
fn courses() -> [CourseRow; 3] {
    [course(7, 2), course(7, 2), course(63, 1)]
}

// Their choices: two of course 0, two of course 1 and one of course 2.
fn choices() -> [ChoiceRow; 5] {
    [
        choice(0, 4),
        choice(6, 31),
        choice(0, 5),
        choice(1, 4),
        choice(0, 4),
    ]
}

// What the opening answers for the shape of 2, 2 and 1 choices.
fn opening(courses: &[CourseRow], choices: &[ChoiceRow]) -> Result<(), Refusal> {
    let shape = shape(&[2, 2, 1])?;
    Rule::check(&shape, courses, choices)
}

// How many pairings stand under the rule for that shape, each counted under both names.
fn allowed(courses: &[CourseRow], choices: &[ChoiceRow]) -> Result<usize, Refusal> {
    let shape = shape(&[2, 2, 1])?;
    let store = Rule::new(&shape, courses, choices);
    Ok(standing(&store))
}

// A what-if over a store by rule whose shape and rows are lent for three different times.
fn lent_apart<'a, 'b, 'c>(
    shape: &'a Shape,
    courses: &'b [CourseRow],
    choices: &'c [ChoiceRow],
) -> WhatIf<Rule<'a, 'b, 'c>> {
    WhatIf::lay(Rule::new(shape, courses, choices))
}

#[test]
fn a_store_by_rule_takes_loans_of_three_times(rt: HostRuntime) -> Result<(), Fail> {
    let shape = shape(&[2, 2, 1])?;
    let courses = courses();
    let choices = choices();
    let store = lent_apart(&shape, &courses, &choices);
    assert_eq!(rt; standing(&store), 12);
    Ok(())
}

#[test]
fn choices_clash_by_evening_and_room_or_teacher(rt: HostRuntime) -> Result<(), Fail> {
    let shape = shape(&[2, 2, 1])?;
    let courses = courses();
    let choices = choices();
    let store = Rule::new(&shape, &courses, &choices);
    assert_eq!(rt; store.courses(), 3);
    assert_eq!(rt; store.choices(2), 1);
    assert!(rt; !store.stands(Pairing::new(0, 0, 1, 0)));
    assert!(rt; !store.stands(Pairing::new(1, 0, 0, 0)));
    assert!(rt; !store.stands(Pairing::new(0, 0, 2, 0)));
    assert!(rt; store.stands(Pairing::new(0, 0, 1, 1)));
    assert!(rt; store.stands(Pairing::new(2, 0, 1, 0)));
    assert!(rt; store.stands(Pairing::new(1, 1, 2, 0)));
    assert_eq!(rt; standing(&store), 12);
    Ok(())
}

#[test]
fn a_sheet_drafted_by_rule_allows_one_pairing(rt: HostRuntime) -> Result<(), Fail> {
    let mut courses = [course(0, 0); 2];
    let mut choices = [choice(0, 0); 3];
    let _ = read(&SHEET, &mut courses, &mut choices, &mut []);
    let shape = shape_of(&courses)?;
    assert_eq!(rt; Rule::check(&shape, &courses, &choices), Ok(()));
    let store = Rule::new(&shape, &courses, &choices);
    assert!(rt; store.stands(Pairing::new(0, 1, 1, 0)));
    assert!(rt; store.stands(Pairing::new(1, 0, 0, 1)));
    assert_eq!(rt; standing(&store), 2);
    Ok(())
}

#[test]
fn a_strike_takes_one_pairing_and_stays(rt: HostRuntime) -> Result<(), Fail> {
    let shape = shape(&[2, 2, 1])?;
    let courses = courses();
    let choices = choices();
    let mut store = Rule::new(&shape, &courses, &choices);
    store.strike(Pairing::new(2, 0, 0, 1));
    assert!(rt; !store.stands(Pairing::new(0, 1, 2, 0)));
    assert_eq!(rt; standing(&store), 10);
    store.strike(Pairing::new(0, 0, 1, 0));
    store.strike(Pairing::new(0, 2, 1, 0));
    store.strike(Pairing::new(1, 0, 1, 1));
    store.strike(Pairing::new(3, 0, usize::MAX, 0));
    assert_eq!(rt; standing(&store), 10);
    Ok(())
}

#[test]
fn rows_that_do_not_fit_the_shape_are_refused(rt: HostRuntime) {
    let rows = choices();
    let refused = Err(Refusal::Limit);
    assert_eq!(rt; opening(&courses(), &rows), Ok(()));
    assert_eq!(rt; opening(&courses()[0..2], &rows), refused);
    assert_eq!(rt; opening(&[course(7, 2); 4], &rows), refused);
    assert_eq!(rt;
        opening(&[course(7, 2), course(7, 2), course(63, 2)], &rows),
        refused
    );
    assert_eq!(rt;
        opening(&[course(7, 2), course(64, 2), course(63, 1)], &rows),
        refused
    );
    assert_eq!(rt; opening(&courses(), &rows[0..4]), refused);
    assert_eq!(rt; opening(&courses(), &[choice(0, 0); 6]), refused);
}

#[test]
fn the_first_row_that_makes_no_record_is_refused(rt: HostRuntime) {
    let mut rows = choices();
    rows[4] = choice(7, 32);
    assert_eq!(rt; opening(&courses(), &rows), Err(Refusal::Evening));
    rows[2] = choice(6, 32);
    assert_eq!(rt; opening(&courses(), &rows), Err(Refusal::Limit));
    rows[1] = choice(7, 0);
    assert_eq!(rt; opening(&courses(), &rows), Err(Refusal::Evening));
    assert_eq!(rt; opening(&courses(), &rows[0..4]), Err(Refusal::Limit));
}

#[test]
fn a_missing_row_clashes_with_everything(rt: HostRuntime) {
    let mut rows = choices();
    assert_eq!(rt; allowed(&courses(), &rows[0..4]), Ok(6));
    assert_eq!(rt; allowed(&courses()[0..2], &rows), Ok(6));
    assert_eq!(rt; allowed(&courses(), &[]), Ok(0));
    assert_eq!(rt; allowed(&[], &rows), Ok(0));
    rows[3] = choice(7, 4);
    assert_eq!(rt; allowed(&courses(), &rows), Ok(6));
    rows[3] = choice(1, 32);
    assert_eq!(rt; allowed(&courses(), &rows), Ok(6));
    rows[3] = choice(1, 4);
    assert_eq!(rt;
        allowed(&[course(7, 9), course(7, 0), course(64, 8)], &rows),
        Ok(12)
    );
}
