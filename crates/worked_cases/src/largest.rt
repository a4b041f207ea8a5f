// The largest sheets: 24 courses of 8 choices, and up to 4,095 bars.
ghost use Rattle.std.specs.Prelude.{◌≤◌, length};

use crate::support::{
    NO_BAR, NO_BYTE, NO_CHOICE, NO_COURSE, bar, choice, course, fault, same, write_rows,
};
use draft::refusal::Refusal;
use layout::rows::{BarRow, ChoiceRow, Counts, CourseRow};
use sheet::recheck::recheck;
use std::alloc::{AllocError, Global};
use std::process::Abort;
use std::test::Fail;

const BARS: usize = 4416;

const MOST_BARS: usize = 4095;

const BITS_WITHOUT_BARS: usize = 9 + 24 * 9 + 192 * 8 + 12;

const BYTES_WITHOUT_BARS: usize = (BITS_WITHOUT_BARS + 7) / 8;

const BYTES_WITH_BARS: usize = (BITS_WITHOUT_BARS + MOST_BARS * 16 + 7) / 8;

// 24 courses of 8 choices.
fn courses() -> [CourseRow; 24] {
    let mut rows = [NO_COURSE; 24];
    for (i, row) in rows.iter_mut().enumerate() {
        *row = course((i * 11 % 64) as u8, 8);
    }
    rows
}

// Their choices.
fn choices() -> [ChoiceRow; 192] {
    let mut rows = [NO_CHOICE; 192];
    for (k, row) in rows.iter_mut().enumerate() {
        *row = choice((k % 7) as u8, (k * 5 % 32) as u8);
    }
    rows
}

// The bar whose fields make this number.
fn numbered(number: u16) -> BarRow {
    let course = (number / 2048) as u8;
    let choice = (number / 256 % 8) as u8;
    let higher = (number / 8 % 32) as u8;
    let partner = (number % 8) as u8;
    bar(course, choice, higher, partner)
}

// A quarter of the 17,664 pairings of the courses, as rising bars.
fn rising(heap: Global) -> Result<Vec<BarRow>, AllocError> {
    let mut bars = Vec::new(heap);
    for number in 0..u16::MAX {
        let bar = numbered(number);
        if bar.course < bar.higher && bar.higher < 24 && bar.choice % 4 == bar.partner % 4 {
            bars.push(bar)?;
        }
    }
    Ok(bars)
}

// The sheet of the courses and the bars, which takes that many bytes; the byte after it stays.
fn written(rt: &impl Abort, heap: Global, bars: &[BarRow], bytes: usize) -> Result<Vec<u8>, Fail>
    requires { bytes ≤ 10000 }
{
    let mut sheet = vec![in heap; NO_BYTE; bytes + 1]?;
    let answer = write_rows(&courses(), &choices(), bars, &mut sheet);
    assert_eq!(rt; answer, Ok(bytes));
    assert_eq!(rt; sheet.pop(), Some(NO_BYTE));
    Ok(sheet)
}

// The sheet gives back the courses and the bars, and is written again as it stood.
fn comes_back(rt: &impl Abort, heap: Global, sheet: &[u8], bars: &[BarRow]) -> Result<(), Fail>
    requires { length bars.now ≤ 4095 }
{
    let mut read_courses = [NO_COURSE; 25];
    let mut read_choices = [NO_CHOICE; 193];
    let mut read_bars = vec![in heap; NO_BAR; bars.len() + 1]?;
    let mut out = vec![in heap; NO_BYTE; sheet.len()]?;
    let counts = Counts {
        courses: 24,
        choices: 192,
        bars: bars.len(),
    };
    let answer = recheck(
        sheet,
        &mut read_courses,
        &mut read_choices,
        &mut read_bars,
        &mut out,
    );
    assert_eq!(rt; answer, Ok(same(counts, sheet.len())));
    assert_eq!(rt; &read_courses[0..24], &courses()[0..24]);
    assert_eq!(rt; &read_choices[0..192], &choices()[0..192]);
    assert_eq!(rt; read_courses[24], NO_COURSE);
    assert_eq!(rt; read_choices[192], NO_CHOICE);
    assert_eq!(rt; read_bars.pop(), Some(NO_BAR));
    assert_eq!(rt; read_bars.as_slice(), bars);
    assert_eq!(rt; out.as_slice(), sheet);
    Ok(())
}

#[test]
fn a_sheet_of_192_choices_goes_both_ways(rt: HostRuntime) -> Result<(), Fail> {
    assert_eq!(rt; BYTES_WITHOUT_BARS, 222);
    let sheet = written(&rt, rt.alloc(), &[], BYTES_WITHOUT_BARS)?;
    comes_back(&rt, rt.alloc(), &sheet, &[])
}

#[test]
fn a_sheet_of_4095_bars_goes_both_ways(rt: HostRuntime) -> Result<(), Fail> {
    assert_eq!(rt; BYTES_WITH_BARS, 8412);
    let bars = rising(rt.alloc())?;
    assert!(rt; bars.len() == BARS);
    let most = &bars[BARS - MOST_BARS..BARS];
    let sheet = written(&rt, rt.alloc(), most, BYTES_WITH_BARS)?;
    comes_back(&rt, rt.alloc(), &sheet, most)
}

#[test]
fn more_than_4095_bars_are_refused(rt: HostRuntime) -> Result<(), Fail> {
    let bars = rising(rt.alloc())?;
    assert!(rt; bars.len() == BARS);
    let more = &bars[BARS - MOST_BARS - 1..BARS];
    let mut out = vec![in rt.alloc(); NO_BYTE; 9000]?;
    let answer = write_rows(&courses(), &choices(), more, &mut out);
    assert_eq!(rt; answer, Err(fault(Refusal::Limit, 0)));
    assert_eq!(rt; out, vec![in rt.alloc(); NO_BYTE; 9000]?);
    Ok(())
}
