// The bars of a sheet: three courses with 2, 1 and 2 choices, and two bars at the bits 88 and 104.
use crate::support::{
    BARRED, BARRED_COUNTS, BARS, CHOICES, COURSES, Lists, NO_BYTE, refuses, same,
};
use draft::refusal::Refusal;
use reader::check::check;
use std::process::Abort;

// Two sound bars each, which rise by the course, the choice, the higher course or its choice. A bar's
// first byte is its course, then its choice in the last 3 bits, and its second byte is the same of the
// higher course.
const RISING: [([u8; 2], [u8; 2]); 4] = [
    ([0x00, 0x11], [0x08, 0x10]),
    ([0x00, 0x11], [0x01, 0x08]),
    ([0x01, 0x08], [0x01, 0x10]),
    ([0x01, 0x10], [0x01, 0x11]),
];

// The sheet with two other bars.
fn with_bars(first: [u8; 2], second: [u8; 2]) -> [u8; 15] {
    let mut sheet = BARRED;
    sheet[11..13].copy_from_slice(&first);
    sheet[13..15].copy_from_slice(&second);
    sheet
}

// Each of the bars is refused for what it names, as the first bar and as the second.
fn refuses_names(rt: &impl Abort, bars: &[[u8; 2]]) {
    for bar in bars {
        refuses(rt, &with_bars(*bar, [0x08, 0x11]), Refusal::BarName, 88);
        refuses(rt, &with_bars([0x00, 0x08], *bar), Refusal::BarName, 104);
    }
}

#[test]
fn a_sheet_with_two_bars_gives_its_rows(rt: HostRuntime) {
    let mut lists = Lists::new();
    assert_eq!(rt; check(&BARRED), Ok(BARRED_COUNTS));
    assert_eq!(rt; lists.read(&BARRED), Ok(BARRED_COUNTS));
    assert_eq!(rt; &lists.courses[0..3], &COURSES[0..3]);
    assert_eq!(rt; &lists.choices[0..5], &CHOICES[0..5]);
    assert_eq!(rt; &lists.bars[0..2], &BARS[0..2]);
}

#[test]
fn a_sheet_with_two_bars_is_written_again_as_it_stood(rt: HostRuntime) {
    let mut lists = Lists::new();
    let answer = same(BARRED_COUNTS, 15);
    assert_eq!(rt; lists.recheck(&BARRED, 16), Ok(answer));
    assert_eq!(rt; &lists.out[0..15], &BARRED[0..15]);
    assert_eq!(rt; lists.out[15], NO_BYTE);
}

#[test]
fn a_bar_with_a_course_that_is_not_there_is_refused(rt: HostRuntime) {
    refuses_names(
        &rt,
        &[[0x00, 0x18], [0x00, 0xF8], [0x10, 0x18], [0x18, 0x20]],
    );
}

#[test]
fn a_bar_with_a_choice_that_is_not_there_is_refused(rt: HostRuntime) {
    refuses_names(
        &rt,
        &[
            [0x02, 0x08],
            [0x00, 0x09],
            [0x07, 0x10],
            [0x09, 0x10],
            [0x08, 0x12],
        ],
    );
}

#[test]
fn a_bar_whose_courses_do_not_rise_is_refused(rt: HostRuntime) {
    refuses_names(
        &rt,
        &[
            [0x00, 0x00],
            [0x00, 0x01],
            [0x08, 0x08],
            [0x08, 0x00],
            [0x10, 0x08],
        ],
    );
}

#[test]
fn two_equal_bars_are_refused(rt: HostRuntime) {
    for bar in [[0x00, 0x08], [0x01, 0x11], [0x08, 0x10]] {
        refuses(&rt, &with_bars(bar, bar), Refusal::BarOrder, 104);
    }
}

#[test]
fn two_falling_bars_are_refused(rt: HostRuntime) {
    for (first, second) in RISING {
        refuses(&rt, &with_bars(second, first), Refusal::BarOrder, 104);
    }
}

#[test]
fn a_bar_that_rises_in_any_field_is_good(rt: HostRuntime) {
    for (first, second) in RISING {
        assert_eq!(rt; check(&with_bars(first, second)), Ok(BARRED_COUNTS));
    }
}

#[test]
fn a_bar_both_unsound_and_out_of_order_counts_as_unsound(rt: HostRuntime) {
    for bar in [[0x00, 0x00], [0x02, 0x08], [0x00, 0x18], [0x01, 0x09]] {
        refuses(&rt, &with_bars([0x08, 0x11], bar), Refusal::BarName, 104);
    }
}

#[test]
fn a_sheet_may_end_inside_a_bar(rt: HostRuntime) {
    refuses(&rt, &BARRED[0..10], Refusal::SheetEnds, 76);
    refuses(&rt, &BARRED[0..11], Refusal::SheetEnds, 88);
    refuses(&rt, &BARRED[0..12], Refusal::SheetEnds, 88);
    refuses(&rt, &BARRED[0..14], Refusal::SheetEnds, 104);
    let mut sheet = BARRED;
    sheet[10] = 3;
    refuses(&rt, &sheet, Refusal::SheetEnds, 120);
}

#[test]
fn bytes_after_the_last_bar_are_refused(rt: HostRuntime) {
    let mut sheet = BARRED;
    sheet[10] = 1;
    refuses(&rt, &sheet, Refusal::Filling, 104);
    sheet[10] = 0;
    refuses(&rt, &sheet, Refusal::Filling, 88);
}
