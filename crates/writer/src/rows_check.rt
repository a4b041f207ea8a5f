// The first fault of rows that are to be written.
ghost use Rattle.std.specs.Prelude.{◌≡◌, ◌+◌, ◌*◌, ◌^◌, ◌<◌, ◌≤◌, length, None, IfOk};
ghost use Rattle.draft.specs.Shapes.{counts};
ghost use Rattle.layout.specs.Faults.{Tells};
ghost use Rattle.layout.specs.Layout.{total};
ghost use Rattle.writer.specs.RowFaults.{length_fault, choice_fault, choices_fault, course_fault, courses_fault, bars_fault, rows_fault};

use draft::fault::Fault;
use draft::refusal::Refusal;
use draft::shape::{MAX_CHOICES, MAX_COURSES, MIN_CHOICES, MIN_COURSES, Shape};
use layout::bars::check_bar;
use layout::choice::Choice;
use layout::faults::ensure;
use layout::rows::{BarRow, ChoiceRow, CourseRow, LAST_TEACHER, MOST_BARS, Rows};
use layout::shapes::shape_of;

// A choice whose fields begin at bit `at`.
fn check_choice(row: ChoiceRow, at: usize) -> Result<(), Fault>
    requires early { at < 2 ^ 32 }
    ensures told { Tells (choice_fault row at) result }
{
    match Choice::try_from(row) {
        Ok(_) => Ok(()),
        Err(Refusal::Evening) => Err(Fault::Sheet {
            refusal: Refusal::Evening,
            bit: at,
        }),
        Err(refusal) => Err(Fault::Sheet {
            refusal,
            bit: at + 3,
        }),
    }
}

// The choices of a course, the first of which begins at bit `at`.
fn check_choices(choices: &[ChoiceRow], at: usize) -> Result<(), Fault>
    requires early { at < 2 ^ 30 }
    requires few { length choices.now < 256 }
    ensures told { Tells (choices_fault choices.now 0 at (length choices.now)) result }
{
    for (k, row) in choices.iter().enumerate() {
        check_choice(*row, at + 8 * k)?;
    }
    Ok(())
}

// A course that begins at bit `at`, and its choices.
fn check_course(row: &CourseRow, choices: &[ChoiceRow], at: usize) -> Result<(), Fault>
    requires early { at < 2 ^ 28 }
    requires own { length choices.now ≡ row.now.choices }
    ensures told { Tells (course_fault row.now choices.now 0 at) result }
{
    ensure(
        (MIN_CHOICES..=MAX_CHOICES).contains(&row.choices),
        Refusal::Limit,
        at,
    )?;
    ensure(row.teacher <= LAST_TEACHER, Refusal::Limit, at + 3)?;
    check_choices(choices, at + 9)
}

// Each course with its choices, from bit 9 on.
fn check_courses(courses: &[CourseRow], choices: &[ChoiceRow]) -> Result<(), Fault>
    requires many { length courses.now ≤ 24 }
    requires whole { length choices.now ≡ total courses.now }
    ensures told { Tells (courses_fault courses.now choices.now (length courses.now)) result }
{
    let mut at = 9;
    let mut rest = choices;
    for row in courses {
        let (own, later) = rest.split_at(usize::from(row.choices));
        check_course(row, own, at)?;
        at += 9 + 8 * own.len();
        rest = later;
    }
    Ok(())
}

// How many choices the courses have.
fn count_choices(courses: &[CourseRow]) -> usize
    requires few { length courses.now ≤ 24 }
    ensures value { result ≡ total courses.now }
{
    courses.iter().map(|row| usize::from(row.choices)).sum()
}

// The number of courses, then the number of choices, then that of bars.
fn check_lengths(rows: &Rows) -> Result<(), Fault>
    ensures told { Tells (length_fault rows.now.courses.now rows.now.choices.now rows.now.bars.now) result }
{
    let courses = rows.courses;
    ensure(
        (MIN_COURSES..=MAX_COURSES).contains(&courses.len()),
        Refusal::Limit,
        0,
    )?;
    ensure(
        rows.choices.len() == count_choices(courses),
        Refusal::Limit,
        0,
    )?;
    ensure(rows.bars.len() <= MOST_BARS, Refusal::Limit, 0)
}

// The bars, the first of which begins at bit `at`; each is above the bar before it.
fn check_bars(shape: &Shape, bars: &[BarRow], at: usize) -> Result<(), Fault>
    requires early { at < 2 ^ 32 }
    requires many { length bars.now ≤ 4095 }
    ensures told { Tells (bars_fault (counts shape.now) bars.now at (length bars.now)) result }
{
    let mut before = None;
    for (k, bar) in bars.iter().enumerate() {
        check_bar(shape, before, *bar, at + 16 * k)?;
        before = Some(*bar);
    }
    Ok(())
}

// Rows without a fault. They have a sheet.
#[derive(Clone, Copy)]
pub(crate) struct CheckedRows<'a> {
    pub(crate) rows: Rows<'a>,
    ghost clean: { rows_fault rows.courses.now rows.choices.now rows.bars.now ≡ None },
}

// The list lengths, then the fields in their order. Courses without a fault have a shape.
pub(crate) fn check_rows<'a>(rows: &Rows<'a>) -> Result<CheckedRows<'a>, Fault>
    ensures told { Tells (rows_fault rows.now.courses.now rows.now.choices.now rows.now.bars.now) result }
    ensures rows { IfOk result (λ checked. checked.rows ≡ rows.now) }
{
    check_lengths(rows)?;
    check_courses(rows.courses, rows.choices)?;
    let at = 21 + 9 * rows.courses.len() + 8 * rows.choices.len();
    let Ok(shape) = shape_of(rows.courses) else {
        unreachable!()
    };
    check_bars(&shape, rows.bars, at)?;
    Ok(CheckedRows { rows: *rows })
}
