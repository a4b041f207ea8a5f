// Lists and bytes that are too short, and what lies past the rows of a sheet.
ghost use Rattle.std.specs.Prelude.{◌≤◌};

use crate::support::{
    BARRED, BARRED_COUNTS, BARS, CHOICES, COURSES, Lists, NO_BAR, NO_BYTE, NO_CHOICE, NO_COURSE,
    SMALL, SMALL_COUNTS, fault,
};
use draft::fault::Fault;
use draft::refusal::Refusal;
use std::process::Abort;

const TOO_SHORT: Fault = Fault::Sheet {
    refusal: Refusal::Memory,
    bit: 0,
};

// Lists of these lengths are refused, and stay as they were.
fn refuses_lists(rt: &impl Abort, courses: usize, choices: usize, bars: usize)
    requires courses { courses ≤ 4 }
    requires choices { choices ≤ 6 }
    requires bars { bars ≤ 3 }
{
    let mut lists = Lists::new();
    let answer = lists.read_front(&BARRED, courses, choices, bars);
    assert_eq!(rt; answer, Err(TOO_SHORT));
    assert_eq!(rt; lists, Lists::new());
}

#[test]
fn lists_that_just_fit_are_enough(rt: HostRuntime) {
    let mut lists = Lists::new();
    assert_eq!(rt; lists.read_front(&BARRED, 3, 5, 2), Ok(BARRED_COUNTS));
    assert_eq!(rt; &lists.courses[0..3], &COURSES[0..3]);
    assert_eq!(rt; &lists.choices[0..5], &CHOICES[0..5]);
    assert_eq!(rt; &lists.bars[0..2], &BARS[0..2]);
}

#[test]
fn a_list_of_courses_too_short_by_one_is_refused(rt: HostRuntime) {
    refuses_lists(&rt, 2, 6, 3);
}

#[test]
fn a_list_of_choices_too_short_by_one_is_refused(rt: HostRuntime) {
    refuses_lists(&rt, 4, 4, 3);
}

#[test]
fn a_list_of_bars_too_short_by_one_is_refused(rt: HostRuntime) {
    refuses_lists(&rt, 4, 6, 1);
}

#[test]
fn another_fault_comes_before_short_lists(rt: HostRuntime) {
    let mut lists = Lists::new();
    let mut sheet = SMALL;
    assert_eq!(rt; lists.read_front(&sheet, 0, 0, 0), Err(TOO_SHORT));
    sheet[7] = 0x01;
    let filled = fault(Refusal::Filling, 63);
    assert_eq!(rt; lists.read_front(&sheet, 0, 0, 0), Err(filled));
    assert_eq!(rt; lists.read_front(&sheet, 1, 3, 0), Err(filled));
    assert_eq!(rt; lists.read_front(&sheet, 2, 2, 0), Err(filled));
    assert_eq!(rt; lists, Lists::new());
}

#[test]
fn bytes_too_few_to_write_the_sheet_again_are_refused(rt: HostRuntime) {
    let mut lists = Lists::new();
    assert_eq!(rt; lists.recheck(&BARRED, 14), Err(TOO_SHORT));
    let cut = fault(Refusal::SheetEnds, 51);
    assert_eq!(rt; lists.recheck(&SMALL[0..7], 0), Err(cut));
    assert_eq!(rt; lists, Lists::new());
}

#[test]
fn rows_past_the_counts_stay_as_they_were(rt: HostRuntime) {
    let mut lists = Lists::new();
    assert_eq!(rt; lists.read(&BARRED), Ok(BARRED_COUNTS));
    assert_eq!(rt; lists.courses[3], NO_COURSE);
    assert_eq!(rt; lists.choices[5], NO_CHOICE);
    assert_eq!(rt; lists.bars[2], NO_BAR);
    assert_eq!(rt; lists.out, [NO_BYTE; 16]);
}

#[test]
fn a_shorter_sheet_leaves_the_rows_of_a_longer_one_past_its_counts(rt: HostRuntime) {
    let mut lists = Lists::new();
    assert_eq!(rt; lists.read(&BARRED), Ok(BARRED_COUNTS));
    assert_eq!(rt; lists.read(&SMALL), Ok(SMALL_COUNTS));
    assert_eq!(rt; lists.courses[2], COURSES[2]);
    assert_eq!(rt; &lists.choices[3..5], &CHOICES[3..5]);
    assert_eq!(rt; &lists.bars[0..2], &BARS[0..2]);
}
