// Whether course rows and choice rows fit a shape.
ghost use Rattle.std.specs.Prelude.{◌≡◌, ℕ, ◌≤◌, ◌↔◌, None, OnOk, IfErr, IsTrue, EachIndex};
ghost use Rattle.std.specs.List.{AllByRecursion};
ghost use Rattle.draft.specs.Shapes.{counts};
ghost use Rattle.layout.specs.Layout.{counts_of};
ghost use Rattle.layout.specs.Records.{refusal_of};
ghost use Rattle.stores.specs.Rules.{FitsAt, FirstRefused};

use draft::refusal::Refusal;
use draft::shape::Shape;
use layout::choice::Choice;
use layout::rows::{ChoiceRow, CourseRow, LAST_TEACHER};

// Whether a course row has this choice count and a teacher of at most 63.
fn row_fits(row: &CourseRow, count: usize) -> bool
    ensures value { IsTrue result ↔ ((row.now.choices ≡ count) × (row.now.teacher ≤ 63)) }
{
    usize::from(row.choices) == count && row.teacher <= LAST_TEACHER
}

// Whether each row has its course's choice count and a teacher of at most 63.
fn rows_fit(shape: &Shape, courses: &[CourseRow]) -> bool
    ensures value { IsTrue result ↔ EachIndex courses.now (FitsAt (counts shape.now) courses.now) }
{
    courses
        .iter()
        .enumerate()
        .all(|(i, row)| row_fits(row, shape.choices(i)))
}

// Whether there is a course row for each course, with its choice count and a teacher of at most 63.
pub(crate) fn courses_fit(shape: &Shape, courses: &[CourseRow]) -> bool
    ensures value { IsTrue result ↔ ((counts_of courses.now ≡ counts shape.now) × AllByRecursion (λ c. c.teacher ≤ 63) courses.now) }
{
    courses.len() == shape.courses() && rows_fit(shape, courses)
}

// Refuses the first row that makes no record.
pub(crate) fn check_records(choices: &[ChoiceRow]) -> Result<(), Refusal>
    ensures ok { OnOk result (AllByRecursion (λ h. refusal_of h ≡ None) choices.now) }
    ensures err { IfErr result (λ e. (k : ℕ) × FirstRefused choices.now k e) }
{
    for row in choices {
        Choice::try_from(*row)?;
    }
    Ok(())
}
