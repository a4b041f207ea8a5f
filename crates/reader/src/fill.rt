// The second pass of a reading: the rows of a good sheet, written into the caller's lists.
ghost use Rattle.std.specs.Prelude.{◌≡◌, ◌+◌, ◌*◌, ◌^◌, ◌<◌, ◌≤◌, length, take, drop};
ghost use Rattle.reader.specs.Decoded.{rows_of, course_rows, choice_rows, label};
ghost use Rattle.reader.specs.Readers.{Moves};

use crate::decode::Decode;
use crate::fields::BitReader;
use layout::rows::{ChoiceRow, CourseRow};
use layout::widths::{COUNT_WIDTH, TEACHER_WIDTH};

// Writes the next rows, as many as `rows` has.
pub(crate) fn fill<R: Decode>(reader: &mut BitReader, rows: &mut [R])
    requires early { reader.old.at + R.bits * length rows.old < 2 ^ 30 }
    ensures value { rows.new ≡ rows_of (λ k. R.row_at reader.old.sheet.now (reader.old.at + R.bits * k)) (length rows.old) }
    ensures next { Moves reader.old reader.new (R.bits * length rows.old) }
{
    for row in rows.iter_mut() {
        *row = R::decode(reader);
    }
}

// Writes the choices of all courses into the front of `choices`.
pub(crate) fn fill_choices(reader: &mut BitReader, courses: &[CourseRow], choices: &mut [ChoiceRow])
    requires start { reader.old.at ≡ 9 }
    requires few { length courses.now ≤ 24 }
    requires rows { courses.now ≡ course_rows reader.old.sheet.now (length courses.now) }
    requires room { label reader.old.sheet.now (length courses.now) ≤ length choices.old }
    ensures front { let n = length courses.now in take (label reader.old.sheet.now n) choices.new ≡ choice_rows reader.old.sheet.now n }
    ensures rest { let t = label reader.old.sheet.now (length courses.now) in drop t choices.new ≡ drop t choices.old }
    ensures next { let n = length courses.now in Moves reader.old reader.new (9 * n + 8 * label reader.old.sheet.now n) }
{
    let mut labels = 0;
    for row in courses {
        let end = labels + usize::from(row.choices);
        // The course's choices follow its own fields.
        reader.skip(usize::from(COUNT_WIDTH + TEACHER_WIDTH));
        fill(reader, &mut choices[labels..end]);
        labels = end;
    }
}
