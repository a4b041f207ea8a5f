// The plain rows of a sheet. They hold any numbers of their types.

// The limits of a sheet's rows, beside those of a shape.
pub const LAST_TEACHER: u8 = 63;

pub const MOST_BARS: usize = 4095;

// A course: its teacher, and how many choices it has.
#[derive(Clone, Copy, PartialEq, Eq, Debug, Default)]
pub struct CourseRow {
    pub teacher: u8,
    pub choices: u8,
}

// A choice of a course: an evening and a room.
#[derive(Clone, Copy, PartialEq, Eq, Debug, Default)]
pub struct ChoiceRow {
    pub evening: u8,
    pub room: u8,
}

// A barred pairing: choice `choice` of course `course` with choice `partner` of course `higher`.
#[derive(Clone, Copy, PartialEq, Eq, Debug, Default)]
pub struct BarRow {
    pub course: u8,
    pub choice: u8,
    pub higher: u8,
    pub partner: u8,
}

const COURSE_WEIGHT: u32 = 2048;

const CHOICE_WEIGHT: u32 = 256;

const HIGHER_WEIGHT: u32 = 8;

// The bar's fields as one number, by which bars are in order.
impl From<BarRow> for u32 {
    ghost use Rattle.std.specs.Prelude.{◌≡◌};
    ghost use Rattle.layout.specs.Layout.{number_of};

    ghost from_gives = { λ bar number. number ≡ number_of bar };

    fn from(bar: BarRow) -> u32 {
        u32::from(bar.course) * COURSE_WEIGHT
            + u32::from(bar.choice) * CHOICE_WEIGHT
            + u32::from(bar.higher) * HIGHER_WEIGHT
            + u32::from(bar.partner)
    }
}

// How many rows of each kind a sheet has.
#[derive(Clone, Copy, PartialEq, Eq, Debug)]
pub struct Counts {
    pub courses: usize,
    pub choices: usize,
    pub bars: usize,
}

// The rows of a sheet, lent.
#[derive(Clone, Copy)]
pub struct Rows<'a> {
    pub courses: &'a [CourseRow],
    pub choices: &'a [ChoiceRow],
    pub bars: &'a [BarRow],
}
