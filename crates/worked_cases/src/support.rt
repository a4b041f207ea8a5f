// What the cases share: two sheets with their rows, and lists to read them into.
ghost use Rattle.std.specs.Prelude.{◌≤◌};

use draft::fault::Fault;
use draft::refusal::Refusal;
use layout::rows::{BarRow, ChoiceRow, Counts, CourseRow, Rows};
use reader::check::check;
use reader::read::read;
use sheet::checked::Checked;
use sheet::recheck::recheck;
use std::process::Abort;
use writer::write::write;

// A sheet with no bars: its courses begin at bits 9 and 34, its choices at 18, 26 and 43, the number
// of bars at 51, and bit 63 is filling.
pub(crate) const SMALL: [u8; 8] = [0x11, 0x11, 0x40, 0x48, 0x40, 0xA0, 0x40, 0x00];

// A sheet with two bars: its courses begin at bits 9, 34 and 51, its choices at 18, 26, 43, 60 and 68,
// the number of bars at 76, the bars at 88 and 104, and no bit is filling.
pub(crate) const BARRED: [u8; 15] = [
    0x11, 0x91, 0xC0, 0x48, 0x40, 0x1B, 0xE7, 0xF4, 0x06, 0x20, 0x02, 0x00, 0x08, 0x08, 0x11,
];

// How many rows of each kind they have.
pub(crate) const SMALL_COUNTS: Counts = Counts {
    courses: 2,
    choices: 3,
    bars: 0,
};

pub(crate) const BARRED_COUNTS: Counts = Counts {
    courses: 3,
    choices: 5,
    bars: 2,
};

// The rows of the sheet with bars.
pub(crate) const COURSES: [CourseRow; 3] = [
    CourseRow {
        teacher: 7,
        choices: 2,
    },
    CourseRow {
        teacher: 0,
        choices: 1,
    },
    CourseRow {
        teacher: 63,
        choices: 2,
    },
];

pub(crate) const CHOICES: [ChoiceRow; 5] = [
    ChoiceRow {
        evening: 0,
        room: 1,
    },
    ChoiceRow {
        evening: 1,
        room: 1,
    },
    ChoiceRow {
        evening: 6,
        room: 31,
    },
    ChoiceRow {
        evening: 2,
        room: 0,
    },
    ChoiceRow {
        evening: 3,
        room: 2,
    },
];

pub(crate) const BARS: [BarRow; 2] = [
    BarRow {
        course: 0,
        choice: 0,
        higher: 1,
        partner: 0,
    },
    BarRow {
        course: 1,
        choice: 0,
        higher: 2,
        partner: 1,
    },
];

// Marker rows, which no sheet holds, and a marker byte.
pub(crate) const NO_COURSE: CourseRow = CourseRow {
    teacher: 200,
    choices: 201,
};

pub(crate) const NO_CHOICE: ChoiceRow = ChoiceRow {
    evening: 202,
    room: 203,
};

pub(crate) const NO_BAR: BarRow = BarRow {
    course: 204,
    choice: 205,
    higher: 206,
    partner: 207,
};

pub(crate) const NO_BYTE: u8 = 0xAA;

// The course row of a teacher and a choice count.
pub(crate) fn course(teacher: u8, choices: u8) -> CourseRow {
    CourseRow { teacher, choices }
}

// The choice row of an evening and a room.
pub(crate) fn choice(evening: u8, room: u8) -> ChoiceRow {
    ChoiceRow { evening, room }
}

// The bar row of a choice of a course and a choice of a higher course.
pub(crate) fn bar(course: u8, choice: u8, higher: u8, partner: u8) -> BarRow {
    BarRow {
        course,
        choice,
        higher,
        partner,
    }
}

// The fault of a sheet at that bit.
pub(crate) fn fault(refusal: Refusal, bit: usize) -> Fault {
    Fault::Sheet { refusal, bit }
}

// What a sheet that was written again as it stood comes to.
pub(crate) fn same(counts: Counts, bytes: usize) -> Checked {
    Checked {
        counts,
        bytes,
        same: true,
    }
}

// Writes the sheet of these rows.
pub(crate) fn write_rows(
    courses: &[CourseRow],
    choices: &[ChoiceRow],
    bars: &[BarRow],
    out: &mut [u8],
) -> Result<usize, Fault> {
    let rows = Rows {
        courses,
        choices,
        bars,
    };
    write(&rows, out)
}

// Lists with a place more than the rows of the sheet with bars, and bytes to write into.
#[derive(Clone, Copy, PartialEq, Eq, Debug)]
pub(crate) struct Lists {
    pub(crate) courses: [CourseRow; 4],
    pub(crate) choices: [ChoiceRow; 6],
    pub(crate) bars: [BarRow; 3],
    pub(crate) out: [u8; 16],
}

impl Lists {
    // Marker rows and marker bytes.
    pub(crate) fn new() -> Lists {
        Lists {
            courses: [NO_COURSE; 4],
            choices: [NO_CHOICE; 6],
            bars: [NO_BAR; 3],
            out: [NO_BYTE; 16],
        }
    }

    // Reads the sheet.
    pub(crate) fn read(&mut self, sheet: &[u8]) -> Result<Counts, Fault> {
        self.read_front(sheet, 4, 6, 3)
    }

    // Reads the sheet into that many places of each list.
    pub(crate) fn read_front(
        &mut self,
        sheet: &[u8],
        courses: usize,
        choices: usize,
        bars: usize,
    ) -> Result<Counts, Fault>
        requires courses { courses ≤ 4 }
        requires choices { choices ≤ 6 }
        requires bars { bars ≤ 3 }
    {
        read(
            sheet,
            &mut self.courses[0..courses],
            &mut self.choices[0..choices],
            &mut self.bars[0..bars],
        )
    }

    // Checks the sheet in both directions, with that many bytes to write into.
    pub(crate) fn recheck(&mut self, sheet: &[u8], bytes: usize) -> Result<Checked, Fault>
        requires { bytes ≤ 16 }
    {
        recheck(
            sheet,
            &mut self.courses,
            &mut self.choices,
            &mut self.bars,
            &mut self.out[0..bytes],
        )
    }
}

// Whatever is done with the sheet answers the fault, and changes nothing.
pub(crate) fn refuses(rt: &impl Abort, sheet: &[u8], refusal: Refusal, bit: usize) {
    let found = fault(refusal, bit);
    let mut lists = Lists::new();
    assert_eq!(rt; check(sheet), Err(found));
    assert_eq!(rt; lists.read(sheet), Err(found));
    assert_eq!(rt; lists.recheck(sheet, 16), Err(found));
    assert_eq!(rt; lists, Lists::new());
}
