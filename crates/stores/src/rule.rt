// The store by rule: a draft kept by a clash rule over the caller's rows, and marks for what is struck.
ghost use Rattle.std.specs.Prelude.{◌≡◌, replicate};
ghost use Rattle.draft.specs.Drafts.{strike};
ghost use Rattle.draft.specs.Labels.{pair_of};
ghost use Rattle.draft.specs.Shapes.{counts};
ghost use Rattle.stores.specs.FrameLaws.{same_part};
ghost use Rattle.stores.specs.Marks.{Marked};
ghost use Rattle.stores.specs.RuleLaws.{rule_lawful};
ghost use Rattle.stores.specs.Rules.{clash_free, rule_draft, RowsTold};

use crate::clash::ShapeRows;
use crate::marks::{is_set, set_bit_of};
use crate::rows::{check_records, courses_fit};
use draft::pairing::Pairing;
use draft::refusal::Refusal;
use draft::shape::Shape;
use draft::store::Store;
use layout::rows::{ChoiceRow, CourseRow};

// The pairings of a shape that the rows allow, less the marked ones. A mark lies at the pairing's
// number.
#[derive(Drop)]
pub struct Rule<'a, 'b, 'c> {
    rows: ShapeRows<'a, 'b, 'c>,
    marks: [u8; 2292],
}

impl<'a, 'b, 'c> Rule<'a, 'b, 'c> {
    // The opening's check: whether the rows fit the shape, and each choice row makes a record.
    pub fn check(shape: &Shape, courses: &[CourseRow], choices: &[ChoiceRow]) -> Result<(), Refusal>
        ensures cases { RowsTold (counts shape.now) courses.now choices.now result }
    {
        if !courses_fit(shape, courses) || choices.len() != shape.labels() {
            return Err(Refusal::Limit);
        }
        check_records(choices)
    }

    // The store over these rows, with no mark. Nothing is refused.
    pub fn new(
        shape: &'a Shape,
        courses: &'b [CourseRow],
        choices: &'c [ChoiceRow],
    ) -> Rule<'a, 'b, 'c>
        ensures shape { result.rows.shape.now ≡ shape.now }
        ensures courses { result.rows.courses.now ≡ courses.now }
        ensures choices { result.rows.choices.now ≡ choices.now }
        ensures marks { result.marks ≡ replicate 2292 0 }
        ensures draft { rule_draft (counts shape.now) courses.now choices.now result.marks ≡ clash_free (counts shape.now) courses.now choices.now }
    {
        Rule {
            rows: ShapeRows {
                shape,
                courses,
                choices,
            },
            marks: [0u8; 2292],
        }
    }
}

impl<'a, 'b, 'c> Store for Rule<'a, 'b, 'c> {
    ghost draft = { λ s. rule_draft (counts s.rows.shape.now) s.rows.courses.now s.rows.choices.now s.marks };

    ghost laws = { λ s. rule_lawful s.rows.shape.now s.rows.courses.now s.rows.choices.now s.marks };

    ghost frame = { λ s t. s.rows ≡ t.rows };

    ghost preorder = { same_part (λ s. s.rows) };

    // The number of courses.
    fn courses(&self) -> usize {
        self.rows.shape.courses()
    }

    // The number of choices of course `i`, 0 where there is no such course.
    fn choices(&self, i: usize) -> usize {
        self.rows.shape.choices(i)
    }

    // Whether the pairing neither clashes nor is marked.
    fn stands(&self, pairing: Pairing) -> bool {
        let Some(n) = self.rows.shape.pair(pairing) else {
            return false;
        };
        !is_set(&self.marks, n) && self.rows.is_allowed(pairing)
    }

    // Marks the pairing; the rows stay as they are.
    fn strike(&mut self, pairing: Pairing)
        ensures draft { rule_draft (counts self.new.rows.shape.now) self.new.rows.courses.now self.new.rows.choices.now self.new.marks ≡ strike (rule_draft (counts self.old.rows.shape.now) self.old.rows.courses.now self.old.rows.choices.now self.old.marks) pairing }
        ensures frame { self.old.rows ≡ self.new.rows }
        ensures marks { Marked (pair_of (counts self.old.rows.shape.now) pairing) self.old.marks self.new.marks }
    {
        set_bit_of(&mut self.marks, self.rows.shape.pair(pairing), true);
    }
}
