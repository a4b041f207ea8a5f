// Which pairings course rows and choice rows allow.
ghost use Rattle.std.specs.Prelude.{◌≡◌, true, ◌&&◌, is_some, IfSome};
ghost use Rattle.draft.specs.Labels.{named, there};
ghost use Rattle.draft.specs.Shapes.{counts};
ghost use Rattle.stores.specs.Rules.{clash, course_row, choice_row, known, allowed};

use draft::pairing::{Pairing, Side};
use draft::shape::Shape;
use layout::choice::Choice;
use layout::rows::{ChoiceRow, CourseRow};

// A choice with its course's teacher.
#[derive(Clone, Copy)]
struct Class {
    teacher: u8,
    choice: Choice,
}

impl Class {
    // Whether both are on one evening, and in one room or of one teacher.
    fn clashes_with(self, other: Class) -> bool
        ensures value { result ≡ clash self.teacher record { evening = self.choice.evening; room = self.choice.room } other.teacher record { evening = other.choice.evening; room = other.choice.room } }
    {
        self.choice.evening() == other.choice.evening()
            && (self.choice.room() == other.choice.room() || self.teacher == other.teacher)
    }
}

// A shape, with rows for its courses and choices, each lent for a time of its own.
#[derive(Clone, Copy)]
pub(crate) struct ShapeRows<'a, 'b, 'c> {
    pub(crate) shape: &'a Shape,
    pub(crate) courses: &'b [CourseRow],
    pub(crate) choices: &'c [ChoiceRow],
}

impl ShapeRows<'_, '_, '_> {
    // The class of a choice, where there is such a choice, neither of its rows is missing, and its
    // choice row makes a record.
    fn class_of(&self, side: Side) -> Option<Class>
        ensures test { is_some result ≡ (there (counts self.now.shape.now) side && known (counts self.now.shape.now) self.now.courses.now self.now.choices.now side) }
        ensures teacher { IfSome result (λ x. x.teacher ≡ (course_row self.now.courses.now side).teacher) }
        ensures evening { IfSome result (λ x. x.choice.evening ≡ (choice_row (counts self.now.shape.now) self.now.choices.now side).evening) }
        ensures room { IfSome result (λ x. x.choice.room ≡ (choice_row (counts self.now.shape.now) self.now.choices.now side).room) }
    {
        let teacher = self.courses.get(side.course)?.teacher;
        let row = self.choices.get(self.shape.label(side)?)?;
        let choice = Choice::try_from(*row).ok()?;
        Some(Class { teacher, choice })
    }

    // Whether both choices of a pairing are known and do not clash.
    pub(crate) fn is_allowed(&self, pairing: Pairing) -> bool
        requires named { named (counts self.now.shape.now) pairing ≡ true }
        ensures value { result ≡ allowed (counts self.now.shape.now) self.now.courses.now self.now.choices.now pairing }
    {
        match (self.class_of(pairing.one), self.class_of(pairing.other)) {
            (Some(x), Some(y)) => !x.clashes_with(y),
            _ => false,
        }
    }
}
