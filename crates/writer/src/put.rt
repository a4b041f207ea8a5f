// The fields of rows put into bytes.
ghost use Rattle.std.specs.Prelude.{◌≡◌, ◌≤◌, [], ◌∷◌, List, length};
ghost use Rattle.std.specs.List.{flat_map, AllByRecursion};
ghost use Rattle.layout.specs.Layout.{Field, choice_fields, course_fields, courses_fields, bar_fields, layout, total, LawfulCourse, LawfulChoice};
ghost use Rattle.writer.specs.Putting.{FitBar};
ghost use Rattle.writer.specs.Writers.{Adds, HasRoom};

use crate::fields::BitWriter;
use crate::rows_check::CheckedRows;
use layout::choice::Choice;
use layout::rows::{BarRow, ChoiceRow, CourseRow};
use layout::widths::{
    BARS_WIDTH, CHOICE_WIDTH, COUNT_WIDTH, COURSE_WIDTH, COURSES_WIDTH, EDITION, EDITION_WIDTH,
    EVENING_WIDTH, ROOM_WIDTH, TEACHER_WIDTH,
};

// A row that is written by itself.
trait Put {
    // The row's fields.
    ghost fields: { Self → List Field };

    // The row may be written.
    ghost may_be_put: { Self → Type 0 };

    // Puts the row's fields.
    fn put(&self, writer: &mut BitWriter)
        requires row { may_be_put self.now }
        requires room { HasRoom writer.old (fields self.now) }
        ensures fields { Adds writer.old writer.new (fields self.now) };
}

// Puts a record's fields.
fn put_choice(writer: &mut BitWriter, choice: Choice)
    requires room { HasRoom writer.old ((3, choice.evening) ∷ (5, choice.room) ∷ []) }
    ensures fields { Adds writer.old writer.new ((3, choice.evening) ∷ (5, choice.room) ∷ []) }
{
    writer.put(EVENING_WIDTH, u16::from(choice.evening()));
    writer.put(ROOM_WIDTH, u16::from(choice.room()));
}

// A choice row is written as the record that it makes.
impl Put for ChoiceRow {
    ghost fields = { choice_fields };

    ghost may_be_put = { LawfulChoice };

    fn put(&self, writer: &mut BitWriter) {
        match Choice::try_from(*self) {
            Ok(choice) => put_choice(writer, choice),
            Err(_) => unreachable!(),
        }
    }
}

impl Put for BarRow {
    ghost fields = { bar_fields };

    ghost may_be_put = { FitBar };

    fn put(&self, writer: &mut BitWriter) {
        writer.put(COURSE_WIDTH, u16::from(self.course));
        writer.put(CHOICE_WIDTH, u16::from(self.choice));
        writer.put(COURSE_WIDTH, u16::from(self.higher));
        writer.put(CHOICE_WIDTH, u16::from(self.partner));
    }
}

// Puts the rows, one after another.
fn put_rows<R: Put>(writer: &mut BitWriter, rows: &[R])
    requires rows { AllByRecursion R.may_be_put rows.now }
    requires room { HasRoom writer.old (flat_map R.fields rows.now) }
    ensures fields { Adds writer.old writer.new (flat_map R.fields rows.now) }
{
    for row in rows {
        row.put(writer);
    }
}

// Puts the course, and then its choices.
fn put_course(writer: &mut BitWriter, row: &CourseRow, choices: &[ChoiceRow])
    requires own { length choices.now ≡ row.now.choices }
    requires course { LawfulCourse row.now }
    requires lawful { AllByRecursion LawfulChoice choices.now }
    requires room { HasRoom writer.old (course_fields row.now choices.now) }
    ensures fields { Adds writer.old writer.new (course_fields row.now choices.now) }
{
    writer.put(COUNT_WIDTH, u16::from(row.choices) - 1);
    writer.put(TEACHER_WIDTH, u16::from(row.teacher));
    put_rows(writer, choices);
}

// Puts each course with its choices.
fn put_courses(writer: &mut BitWriter, courses: &[CourseRow], choices: &[ChoiceRow])
    requires whole { length choices.now ≡ total courses.now }
    requires courses { AllByRecursion LawfulCourse courses.now }
    requires choices { AllByRecursion LawfulChoice choices.now }
    requires room { HasRoom writer.old (courses_fields courses.now choices.now) }
    ensures fields { Adds writer.old writer.new (courses_fields courses.now choices.now) }
{
    let mut rest = choices;
    for row in courses {
        let (own, later) = rest.split_at(usize::from(row.choices));
        put_course(writer, row, own);
        rest = later;
    }
}

// Puts the whole sheet of the rows.
pub(crate) fn put_sheet(writer: &mut BitWriter, checked: &CheckedRows)
    requires room { HasRoom writer.old (layout checked.now.rows.courses.now checked.now.rows.choices.now checked.now.rows.bars.now) }
    ensures fields { Adds writer.old writer.new (layout checked.now.rows.courses.now checked.now.rows.choices.now checked.now.rows.bars.now) }
{
    let rows = &checked.rows;
    writer.put(EDITION_WIDTH, EDITION);
    writer.put(COURSES_WIDTH, rows.courses.len() as u16);
    put_courses(writer, rows.courses, rows.choices);
    writer.put(BARS_WIDTH, rows.bars.len() as u16);
    put_rows(writer, rows.bars);
}
