// The choice record: an evening and a room within their limits.
ghost use Rattle.std.specs.Prelude.{◌≡◌, ◌≤◌};

use crate::rows::ChoiceRow;
use draft::refusal::Refusal;

pub const LAST_EVENING: u8 = 6;

pub const LAST_ROOM: u8 = 31;

// A choice whose evening is at most 6 and whose room is at most 31.
#[derive(Clone, Copy)]
pub struct Choice {
    evening: u8,
    room: u8,
    ghost early: { evening ≤ 6 },
    ghost housed: { room ≤ 31 },
}

impl TryFrom<ChoiceRow> for Choice {
    type Error = Refusal;

    ghost use Rattle.layout.specs.Records.{Recorded};

    ghost try_from_gives = { Recorded };

    // The record of a row, or why the row makes none.
    fn try_from(row: ChoiceRow) -> Result<Choice, Refusal> {
        if row.evening > LAST_EVENING {
            return Err(Refusal::Evening);
        }
        if row.room > LAST_ROOM {
            return Err(Refusal::Limit);
        }
        Ok(Choice {
            evening: row.evening,
            room: row.room,
        })
    }
}

impl Choice {
    // The evening, 0 to 6.
    pub fn evening(&self) -> u8
        ensures value { result ≡ self.now.evening }
        ensures bound { result ≤ 6 }
    {
        self.evening
    }

    // The room, 0 to 31.
    pub fn room(&self) -> u8
        ensures value { result ≡ self.now.room }
        ensures bound { result ≤ 31 }
    {
        self.room
    }
}
