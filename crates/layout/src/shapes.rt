// The shape that course rows have.
ghost use Rattle.std.specs.Prelude.{◌≡◌, ◌≤◌, length, take, MatchResult};
ghost use Rattle.draft.specs.Limits.{Limits};
ghost use Rattle.draft.specs.Shapes.{counts};
ghost use Rattle.draft.specs.declared.refusal.Refusal.TheVariants.{Limit};
ghost use Rattle.layout.specs.Layout.{counts_of};

use crate::rows::CourseRow;
use draft::refusal::Refusal;
use draft::shape::{MAX_COURSES, Shape};

// The choice counts of the rows in the front of a fixed table, since nothing is allocated.
fn count_table(courses: &[CourseRow]) -> [u8; MAX_COURSES]
    requires few { length courses.now ≤ 24 }
    ensures value { take (length courses.now) result ≡ counts_of courses.now }
{
    let mut table = [0; MAX_COURSES];
    for (i, row) in courses.iter().enumerate() {
        table[i] = row.choices;
    }
    table
}

// The shape with the rows' choice counts, or the refusal of counts outside the limits. No `TryFrom`:
// neither a shape nor a list of rows is a type of this crate.
pub fn shape_of(courses: &[CourseRow]) -> Result<Shape, Refusal>
    ensures value { MatchResult result (λ s. counts s ≡ counts_of courses.now) (λ e. (Limits (counts_of courses.now) → ⊥) × (e ≡ Limit)) }
{
    if courses.len() > MAX_COURSES {
        return Err(Refusal::Limit);
    }
    Shape::try_from(&count_table(courses)[..courses.len()])
}
