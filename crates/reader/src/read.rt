// Reading a sheet into the caller's lists.
ghost use Rattle.std.specs.Prelude.{OnOk};
ghost use Rattle.layout.specs.Faults.{Tells};
ghost use Rattle.reader.specs.Passes.{Room};
ghost use Rattle.reader.specs.Reading.{Reading};
ghost use Rattle.reader.specs.Verdict.{room_fault};

use crate::check::check_head;
use crate::fields::BitReader;
use crate::fill::{fill, fill_choices};
use draft::fault::Fault;
use draft::refusal::Refusal;
use layout::faults::ensure;
use layout::rows::{BarRow, ChoiceRow, Counts, CourseRow};
use layout::widths::{BARS_WIDTH, FIRST_COURSE};

// Whether lists of these lengths have room for so many rows.
fn check_room(counts: Counts, courses: usize, choices: usize, bars: usize) -> Result<(), Fault>
    ensures value { Tells (room_fault counts courses choices bars) result }
    ensures room { OnOk result (Room counts courses choices bars) }
{
    let room = counts.courses <= courses && counts.choices <= choices && counts.bars <= bars;
    ensure(room, Refusal::Memory, 0)
}

// Fills the lists from the front and answers how many rows each has; a refusal leaves them as they were.
pub fn read(
    sheet: &[u8],
    courses: &mut [CourseRow],
    choices: &mut [ChoiceRow],
    bars: &mut [BarRow],
) -> Result<Counts, Fault>
    ensures cases { Reading sheet.now courses.old courses.new choices.old choices.new bars.old bars.new result }
{
    let head = check_head(sheet)?;
    let counts = head.counts;
    check_room(counts, courses.len(), choices.len(), bars.len())?;
    let rows = head.courses();
    courses[..counts.courses].copy_from_slice(rows);
    let mut reader = BitReader {
        sheet,
        at: FIRST_COURSE,
    };
    fill_choices(&mut reader, rows, choices);
    reader.skip(usize::from(BARS_WIDTH));
    fill(&mut reader, &mut bars[..counts.bars]);
    Ok(counts)
}
