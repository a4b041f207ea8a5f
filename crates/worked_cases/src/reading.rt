// Reading a small sheet, and what it becomes by small changes.
ghost use Rattle.std.specs.Prelude.{◌<◌};

use crate::support::{
    Lists, NO_BAR, NO_BYTE, NO_CHOICE, NO_COURSE, SMALL, SMALL_COUNTS, choice, course, refuses,
    same,
};
use draft::refusal::Refusal;
use reader::check::check;

// The small sheet with another byte `k`.
fn changed(k: usize, byte: u8) -> [u8; 8]
    requires { k < 8 }
{
    let mut sheet = SMALL;
    sheet[k] = byte;
    sheet
}

#[test]
fn the_small_sheet_has_two_courses_and_three_choices(rt: HostRuntime) {
    let mut lists = Lists::new();
    assert_eq!(rt; check(&SMALL), Ok(SMALL_COUNTS));
    assert_eq!(rt; lists.read(&SMALL), Ok(SMALL_COUNTS));
    let courses = [course(5, 2), course(5, 1)];
    let choices = [choice(0, 1), choice(1, 1), choice(0, 2)];
    assert_eq!(rt; &lists.courses[0..2], &courses[0..2]);
    assert_eq!(rt; &lists.courses[2..4], &[NO_COURSE; 2][0..2]);
    assert_eq!(rt; &lists.choices[0..3], &choices[0..3]);
    assert_eq!(rt; &lists.choices[3..6], &[NO_CHOICE; 3][0..3]);
    assert_eq!(rt; lists.bars, [NO_BAR; 3]);
}

#[test]
fn the_small_sheet_is_written_again_as_it_stood(rt: HostRuntime) {
    let mut lists = Lists::new();
    let answer = same(SMALL_COUNTS, 8);
    assert_eq!(rt; lists.recheck(&SMALL, 8), Ok(answer));
    assert_eq!(rt; &lists.out[0..8], &SMALL[0..8]);
    assert_eq!(rt; &lists.out[8..16], &[NO_BYTE; 8][0..8]);
}

#[test]
fn a_sheet_without_its_last_byte_ends_inside_a_field(rt: HostRuntime) {
    refuses(&rt, &SMALL[0..7], Refusal::SheetEnds, 51);
}

#[test]
fn an_empty_sheet_ends_inside_the_edition(rt: HostRuntime) {
    refuses(&rt, &[], Refusal::SheetEnds, 0);
}

#[test]
fn every_cut_names_the_field_that_it_falls_into(rt: HostRuntime) {
    let fields = [0, 4, 12, 21, 29, 37, 46, 51];
    for (kept, field) in fields.into_iter().enumerate() {
        refuses(&rt, &SMALL[0..kept], Refusal::SheetEnds, field);
    }
}

#[test]
fn a_filling_bit_of_1_is_refused(rt: HostRuntime) {
    refuses(&rt, &changed(7, 0x01), Refusal::Filling, 63);
}

#[test]
fn a_byte_after_the_sheet_is_refused(rt: HostRuntime) {
    let mut sheet = [0; 9];
    sheet[0..8].copy_from_slice(&SMALL);
    refuses(&rt, &sheet, Refusal::Filling, 64);
    sheet[7] = 0x01;
    refuses(&rt, &sheet, Refusal::Filling, 63);
}

#[test]
fn another_edition_is_refused(rt: HostRuntime) {
    for first in [0x01, 0x21, 0x31, 0x91, 0xF1] {
        refuses(&rt, &changed(0, first), Refusal::Edition, 0);
    }
}

#[test]
fn a_number_of_courses_below_2_or_above_24_is_refused(rt: HostRuntime) {
    for (first, second) in [(0x10, 0x91), (0x10, 0x11), (0x1C, 0x91), (0x1F, 0x91)] {
        let mut sheet = SMALL;
        sheet[0] = first;
        sheet[1] = second;
        refuses(&rt, &sheet, Refusal::Limit, 4);
    }
}

#[test]
fn an_evening_of_7_is_refused_at_its_own_field(rt: HostRuntime) {
    refuses(&rt, &changed(2, 0x78), Refusal::Evening, 18);
    refuses(&rt, &changed(3, 0x78), Refusal::Evening, 26);
    refuses(&rt, &changed(5, 0xBC), Refusal::Evening, 43);
}

#[test]
fn an_evening_of_6_and_a_room_of_31_are_good(rt: HostRuntime) {
    let mut sheet = SMALL;
    sheet[2] = 0x77;
    sheet[3] = 0xC8;
    let mut lists = Lists::new();
    assert_eq!(rt; lists.read(&sheet), Ok(SMALL_COUNTS));
    assert_eq!(rt; lists.choices[0], choice(6, 31));
}

#[test]
fn the_first_field_at_fault_is_the_one_that_is_named(rt: HostRuntime) {
    refuses(&rt, &[0x30], Refusal::Edition, 0);
    refuses(&rt, &[0x10, 0x00], Refusal::Limit, 4);
    refuses(&rt, &[0x11, 0x11, 0x78], Refusal::Evening, 18);
    refuses(
        &rt,
        &[0x31, 0x11, 0x78, 0x48, 0x40, 0xA0, 0x40, 0x01, 0x00],
        Refusal::Edition,
        0,
    );
}
