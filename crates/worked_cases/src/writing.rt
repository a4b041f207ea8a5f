// Writing rows: three courses with 2, 1 and 2 choices, five choices and two bars.
ghost use Rattle.std.specs.Prelude.{◌≤◌};

use crate::support::{
    BARRED, BARS, CHOICES, COURSES, NO_BYTE, bar, choice, course, fault, write_rows,
};
use draft::refusal::Refusal;
use layout::rows::{BarRow, ChoiceRow, CourseRow};
use std::process::Abort;

// The bits where the choices of the rows begin.
const PLACES: [usize; 5] = [18, 26, 43, 60, 68];

// Writing the rows answers the fault, and changes no byte.
fn refuses(
    rt: &impl Abort,
    courses: &[CourseRow],
    choices: &[ChoiceRow],
    bars: &[BarRow],
    refusal: Refusal,
    bit: usize,
) {
    let mut out = [NO_BYTE; 40];
    let found = fault(refusal, bit);
    assert_eq!(rt; write_rows(courses, choices, bars, &mut out), Err(found));
    assert_eq!(rt; out, [NO_BYTE; 40]);
}

// The same of the rows with other bars.
fn refuses_bars(rt: &impl Abort, bars: &[BarRow], refusal: Refusal, bit: usize) {
    refuses(rt, &COURSES, &CHOICES, bars, refusal, bit);
}

// The choice is refused wherever it stands, that many bits after its first.
fn refuses_choice(rt: &impl Abort, other: ChoiceRow, refusal: Refusal, bits: usize)
    requires field { bits ≤ 3 }
{
    for (k, place) in PLACES.into_iter().enumerate() {
        let mut choices = CHOICES;
        choices[k] = other;
        refuses(rt, &COURSES, &choices, &BARS, refusal, place + bits);
    }
}

#[test]
fn the_rows_become_the_sheet_and_later_bytes_stay(rt: HostRuntime) {
    let mut out = [NO_BYTE; 20];
    assert_eq!(rt; write_rows(&COURSES, &CHOICES, &BARS, &mut out), Ok(15));
    assert_eq!(rt; &out[0..15], &BARRED[0..15]);
    assert_eq!(rt; &out[15..20], &[NO_BYTE; 5][0..5]);
}

#[test]
fn bytes_too_few_by_one_are_refused(rt: HostRuntime) {
    let mut out = [NO_BYTE; 14];
    let found = fault(Refusal::Memory, 0);
    assert_eq!(rt; write_rows(&COURSES, &CHOICES, &BARS, &mut out), Err(found));
    assert_eq!(rt; out, [NO_BYTE; 14]);
    let mut enough = [NO_BYTE; 15];
    assert_eq!(rt; write_rows(&COURSES, &CHOICES, &BARS, &mut enough), Ok(15));
    assert_eq!(rt; enough, BARRED);
}

#[test]
fn another_fault_comes_before_too_few_bytes(rt: HostRuntime) {
    let found = fault(Refusal::BarOrder, 104);
    let falling = [BARS[1], BARS[0]];
    assert_eq!(rt;
        write_rows(&COURSES, &CHOICES, &falling, &mut []),
        Err(found)
    );
}

#[test]
fn fewer_than_2_and_more_than_24_courses_are_refused(rt: HostRuntime) {
    refuses(&rt, &[], &[], &[], Refusal::Limit, 0);
    refuses(&rt, &COURSES[0..1], &CHOICES[0..2], &[], Refusal::Limit, 0);
    refuses(
        &rt,
        &[COURSES[1]; 25],
        &[CHOICES[0]; 25],
        &[],
        Refusal::Limit,
        0,
    );
}

#[test]
fn a_choice_row_too_many_or_too_few_is_refused(rt: HostRuntime) {
    refuses(&rt, &COURSES, &CHOICES[0..4], &BARS, Refusal::Limit, 0);
    refuses(&rt, &COURSES[0..2], &CHOICES[0..4], &[], Refusal::Limit, 0);
    refuses(&rt, &COURSES[0..2], &CHOICES[0..2], &[], Refusal::Limit, 0);
}

#[test]
fn a_course_with_no_choice_is_refused(rt: HostRuntime) {
    let mut courses = COURSES;
    courses[1] = course(0, 0);
    refuses(&rt, &courses, &CHOICES[0..4], &BARS, Refusal::Limit, 34);
    courses[0] = course(64, 0);
    refuses(&rt, &courses, &CHOICES[0..2], &BARS, Refusal::Limit, 9);
}

#[test]
fn a_course_with_9_choices_is_refused(rt: HostRuntime) {
    let mut courses = COURSES;
    courses[1] = course(0, 9);
    refuses(&rt, &courses, &[CHOICES[0]; 13], &BARS, Refusal::Limit, 34);
    courses[1] = course(0, 255);
    refuses(&rt, &courses, &[CHOICES[0]; 259], &BARS, Refusal::Limit, 34);
}

#[test]
fn a_teacher_of_64_is_refused(rt: HostRuntime) {
    let places = [12, 37, 54];
    for (k, place) in places.into_iter().enumerate() {
        let mut courses = COURSES;
        courses[k].teacher = 64;
        refuses(&rt, &courses, &CHOICES, &BARS, Refusal::Limit, place);
    }
}

#[test]
fn an_evening_of_7_is_refused(rt: HostRuntime) {
    refuses_choice(&rt, choice(7, 32), Refusal::Evening, 0);
}

#[test]
fn a_room_of_32_is_refused(rt: HostRuntime) {
    refuses_choice(&rt, choice(6, 32), Refusal::Limit, 3);
}

#[test]
fn an_unsound_bar_is_refused(rt: HostRuntime) {
    for unsound in [
        bar(0, 0, 3, 0),
        bar(0, 2, 1, 0),
        bar(0, 0, 1, 1),
        bar(1, 0, 1, 0),
        bar(2, 0, 1, 0),
        bar(255, 255, 255, 255),
    ] {
        refuses_bars(&rt, &[unsound, BARS[1]], Refusal::BarName, 88);
        refuses_bars(&rt, &[BARS[0], unsound], Refusal::BarName, 104);
    }
}

#[test]
fn a_bar_that_is_not_above_the_one_before_is_refused(rt: HostRuntime) {
    let [low, high] = BARS;
    refuses_bars(&rt, &[low, low], Refusal::BarOrder, 104);
    refuses_bars(&rt, &[high, low], Refusal::BarOrder, 104);
    refuses_bars(&rt, &[low, high, high], Refusal::BarOrder, 120);
}

#[test]
fn list_lengths_are_looked_at_before_the_fields(rt: HostRuntime) {
    let late = choice(7, 0);
    refuses(&rt, &COURSES, &[late; 4], &BARS, Refusal::Limit, 0);
    refuses(&rt, &COURSES, &[late; 5], &BARS, Refusal::Evening, 18);
}
