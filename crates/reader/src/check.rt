// The first pass of a reading: the first fault of a sheet, or what it holds.
ghost use Rattle.std.specs.Prelude.{◌≡◌, OnOk};
ghost use Rattle.reader.specs.Passes.{HeadOf, Started, Yields};
ghost use Rattle.reader.specs.Readers.{Moves};
ghost use Rattle.reader.specs.Reading.{Checks};
ghost use Rattle.reader.specs.Verdict.{start_fault, verdict};

use crate::courses::check_courses;
use crate::fields::BitReader;
use crate::head::Head;
use crate::tail::check_tail;
use draft::fault::Fault;
use draft::refusal::Refusal;
use draft::shape::{MAX_COURSES, MIN_COURSES};
use layout::faults::ensure;
use layout::rows::Counts;
use layout::widths::{COURSES_WIDTH, EDITION, EDITION_WIDTH};

// The number of courses, where the edition and that number are good.
fn check_start(reader: &mut BitReader) -> Result<usize, Fault>
    requires start { reader.old.at ≡ 0 }
    ensures value { Yields (start_fault reader.old.sheet.now) (Started reader.old.sheet.now) result }
    ensures next { OnOk result (Moves reader.old reader.new 9) }
{
    let edition = reader.field(EDITION_WIDTH)?;
    ensure(edition == EDITION, Refusal::Edition, 0)?;
    let at = reader.at;
    let n = usize::from(reader.field(COURSES_WIDTH)?);
    ensure((MIN_COURSES..=MAX_COURSES).contains(&n), Refusal::Limit, at)?;
    Ok(n)
}

// The course rows and the counts of a sheet, or its first fault.
pub(crate) fn check_head(sheet: &[u8]) -> Result<Head, Fault>
    ensures value { Yields (verdict sheet.now) (HeadOf sheet.now) result }
{
    let mut reader = BitReader { sheet, at: 0 };
    let courses = check_start(&mut reader)?;
    let (rows, choices) = check_courses(&mut reader, courses)?;
    let bars = check_tail(&mut reader, &rows[..courses])?;
    Ok(Head {
        rows,
        counts: Counts {
            courses,
            choices,
            bars,
        },
    })
}

// How many rows of each kind the sheet has, or its first fault.
pub fn check(sheet: &[u8]) -> Result<Counts, Fault>
    ensures cases { Checks sheet.now result }
{
    let head = check_head(sheet)?;
    Ok(head.counts)
}
