// Rows as the bits mean them, with zeros past the end of the sheet.
ghost use Rattle.std.specs.Prelude.{◌≡◌, ℕ, ◌^◌, ◌<◌, List};
ghost use Rattle.reader.specs.Decoded.{bar_at, choice_at};
ghost use Rattle.reader.specs.Readers.{Moves};

use crate::fields::BitReader;
use layout::rows::{BarRow, ChoiceRow};
use layout::widths::{CHOICE_WIDTH, COURSE_WIDTH, EVENING_WIDTH, ROOM_WIDTH};

// A row that stands in a sheet in a fixed number of bits.
pub(crate) trait Decode: Copy {
    // How many bits the row takes.
    ghost bits: { ℕ };

    // The row that the bits of a sheet from a place on mean.
    ghost row_at: { List ℕ → ℕ → Self };

    // The next row.
    fn decode(reader: &mut BitReader) -> Self
        requires early { reader.old.at < 2 ^ 30 }
        ensures value { result ≡ row_at reader.old.sheet.now reader.old.at }
        ensures next { Moves reader.old reader.new bits };
}

// 3 bits for the evening and 5 for the room.
impl Decode for ChoiceRow {
    ghost bits = { 8 };

    ghost row_at = { choice_at };

    fn decode(reader: &mut BitReader) -> ChoiceRow {
        let evening = reader.value(EVENING_WIDTH) as u8;
        let room = reader.value(ROOM_WIDTH) as u8;
        ChoiceRow { evening, room }
    }
}

// 5 bits for the course and 3 for its choice, and again for the higher course.
impl Decode for BarRow {
    ghost bits = { 16 };

    ghost row_at = { bar_at };

    fn decode(reader: &mut BitReader) -> BarRow {
        let course = reader.value(COURSE_WIDTH) as u8;
        let choice = reader.value(CHOICE_WIDTH) as u8;
        let higher = reader.value(COURSE_WIDTH) as u8;
        let partner = reader.value(CHOICE_WIDTH) as u8;
        BarRow {
            course,
            choice,
            higher,
            partner,
        }
    }
}
