// The refusals, each with its number.
ghost use Rattle.std.specs.Prelude.{◌≡◌};
ghost use Rattle.draft.specs.Refusals.{number_of};

use std::fmt;

// Why a call is refused. The discriminant is the number that is reported.
#[derive(Clone, Copy, PartialEq, Eq, Debug)]
pub enum Refusal {
    // The sheet ends inside a field.
    SheetEnds = 1,
    // The edition is not 1.
    Edition = 2,
    // The number of courses, a choice count, a teacher, a room or a list length breaks a limit.
    Limit = 3,
    // An evening is above 6.
    Evening = 4,
    // A bar names a course or a choice that is not there, or its courses do not rise.
    BarName = 5,
    // A bar is not above the bar before it.
    BarOrder = 6,
    // A filling bit is 1, or bytes follow.
    Filling = 7,
    // The caller's memory is shorter than stated.
    Memory = 8,
    // A course number is not below the number of courses.
    Course = 9,
    // A choice number is not below the course's number of choices.
    Choice = 10,
    // Both sides name one course.
    SameCourse = 11,
    // A picked choice has no standing pairing.
    NothingStands = 12,
    // A bar, a pick or a narrowing on a dead plan.
    DeadPlan = 13,
    // The line is empty or its letter is unknown.
    Letter = 14,
    // A number is missing, malformed or has a fourth digit.
    Number = 15,
    // More follows than one space and a remark.
    Trailing = 16,
}

// The number that is reported.
impl From<Refusal> for u8 {
    ghost from_gives = { λ refusal number. number ≡ number_of refusal };

    fn from(refusal: Refusal) -> u8 {
        refusal as u8
    }
}

// Its number.
impl fmt::Display for Refusal {
    ghost use Rattle.std.specs.Prelude.{Some};
    ghost use Rattle.draft.specs.Texts.{refusal_text};

    ghost output = { λ refusal. Some (refusal_text refusal) };

    fn fmt<W: fmt::Write>(&self, f: &mut fmt::Formatter<W>) -> fmt::Result {
        write!(f, "{}", u8::from(*self))
    }
}
