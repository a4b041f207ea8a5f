// What the first pass over a sheet finds.
ghost use Rattle.std.specs.Prelude.{◌≡◌, ◌≤◌, take};

use draft::shape::MAX_COURSES;
use layout::rows::{Counts, CourseRow};

// The course rows, in the front of a fixed table, since nothing is allocated, and how many rows of each
// kind there are.
#[derive(Clone, Copy)]
pub(crate) struct Head {
    pub(crate) rows: [CourseRow; MAX_COURSES],
    pub(crate) counts: Counts,
    ghost few: { counts.courses ≤ 24 },
}

impl Head {
    // The course rows.
    pub(crate) fn courses(&self) -> &[CourseRow]
        ensures value { result.now ≡ take self.now.counts.courses self.now.rows }
    {
        &self.rows[..self.counts.courses]
    }
}
