// The edition of a sheet, and the widths of its fields in bits.

pub const EDITION: u16 = 1;

pub const EDITION_WIDTH: u8 = 4;

pub const COURSES_WIDTH: u8 = 5;

pub const COUNT_WIDTH: u8 = 3;

pub const TEACHER_WIDTH: u8 = 6;

pub const EVENING_WIDTH: u8 = 3;

pub const ROOM_WIDTH: u8 = 5;

pub const BARS_WIDTH: u8 = 12;

pub const COURSE_WIDTH: u8 = 5;

pub const CHOICE_WIDTH: u8 = 3;

// A whole bar: two courses, each with a choice.
pub const BAR_WIDTH: u8 = 2 * (COURSE_WIDTH + CHOICE_WIDTH);

// The bit where the first course begins.
pub const FIRST_COURSE: usize = (EDITION_WIDTH + COURSES_WIDTH) as usize;
