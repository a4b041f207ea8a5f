// The courses of a sheet, checked field by field.
ghost use Rattle.std.specs.Prelude.{◌≡◌, ◌+◌, ◌*◌, ◌^◌, ◌<◌, ◌≤◌, OnOk, IfOk};
ghost use Rattle.layout.specs.Faults.{Tells};
ghost use Rattle.reader.specs.Decoded.{course_at};
ghost use Rattle.reader.specs.Passes.{Courses, Yields};
ghost use Rattle.reader.specs.Readers.{Moves};
ghost use Rattle.reader.specs.Verdict.{choice_fault, choices_fault, course_fault, courses_fault};

use crate::fields::BitReader;
use draft::fault::Fault;
use draft::refusal::Refusal;
use draft::shape::MAX_COURSES;
use layout::choice::LAST_EVENING;
use layout::faults::ensure;
use layout::rows::CourseRow;
use layout::widths::{COUNT_WIDTH, EVENING_WIDTH, ROOM_WIDTH, TEACHER_WIDTH};

// Evening and room of the next choice.
fn check_choice(reader: &mut BitReader) -> Result<(), Fault>
    requires early { reader.old.at < 2 ^ 30 }
    ensures value { Tells (choice_fault reader.old.sheet.now reader.old.at) result }
    ensures next { OnOk result (Moves reader.old reader.new 8) }
{
    let at = reader.at;
    let evening = reader.field(EVENING_WIDTH)?;
    ensure(evening <= u16::from(LAST_EVENING), Refusal::Evening, at)?;
    reader.field(ROOM_WIDTH)?;
    Ok(())
}

// The next `count` choices.
fn check_choices(reader: &mut BitReader, count: u8) -> Result<(), Fault>
    requires early { reader.old.at < 2 ^ 29 }
    ensures value { Tells (choices_fault reader.old.sheet.now reader.old.at count) result }
    ensures next { OnOk result (Moves reader.old reader.new (8 * count)) }
{
    for _ in 0..count {
        check_choice(reader)?;
    }
    Ok(())
}

// The next course's row, where its choices are good.
fn check_course(reader: &mut BitReader) -> Result<CourseRow, Fault>
    requires early { reader.old.at < 2 ^ 28 }
    ensures value { Yields (course_fault reader.old.sheet.now reader.old.at) (λ row. (row ≡ course_at reader.old.sheet.now reader.old.at) × (row.choices ≤ 8)) result }
    ensures next { IfOk result (λ row. Moves reader.old reader.new (9 + 8 * row.choices)) }
{
    // The field is the number of choices less 1.
    let choices = reader.field(COUNT_WIDTH)? as u8 + 1;
    let teacher = reader.field(TEACHER_WIDTH)? as u8;
    check_choices(reader, choices)?;
    Ok(CourseRow { teacher, choices })
}

// The rows of the sheet's first `n` courses in the front of a table, and how many choices they have.
pub(crate) fn check_courses(
    reader: &mut BitReader,
    n: usize,
) -> Result<([CourseRow; MAX_COURSES], usize), Fault>
    requires start { reader.old.at ≡ 9 }
    requires few { n ≤ 24 }
    ensures value { Yields (courses_fault reader.old.sheet.now n) (Courses reader.old.sheet.now n) result }
    ensures next { IfOk result (λ e. Moves reader.old reader.new (9 * n + 8 * e.1)) }
{
    let mut rows = [CourseRow::default(); MAX_COURSES];
    let mut labels = 0;
    for row in &mut rows[..n] {
        *row = check_course(reader)?;
        labels += usize::from(row.choices);
    }
    Ok((rows, labels))
}
