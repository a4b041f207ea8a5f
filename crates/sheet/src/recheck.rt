// Reads a sheet, writes it again and compares.
ghost use Rattle.std.specs.Prelude.{◌≡◌, ℕ, ◌<◌, ◌≤◌, ◌↔◌, length, take, Some, IsTrue, MatchResult};
ghost use Rattle.layout.specs.Layout.{IsSheet};
ghost use Rattle.layout.specs.Unique.{OneSheet, OneReading};
ghost use Rattle.writer.specs.Writing.{Wrote};
ghost use Rattle.sheet.specs.Exactly.{ReadsSheets, WritesLawful};
ghost use Rattle.sheet.specs.Rechecking.{Rechecking, recheck_fault};
ghost use Rattle.sheet.specs.RoundTrip.{ReadsBack, WritesBack};

use crate::checked::Checked;
use draft::fault::Fault;
use draft::refusal::Refusal;
use layout::rows::{BarRow, ChoiceRow, Counts, CourseRow, Rows};
use reader::check::check;
use reader::read::read;
use writer::write::write;

// The fault of a sheet that there are only `room` bytes to write again.
fn short_fault(sheet: &[u8], room: usize) -> Fault
    requires short { room < length sheet.now }
    ensures value { (courses choices bars : ℕ) → recheck_fault sheet.now courses choices bars room ≡ Some result }
{
    match check(sheet) {
        Ok(_) => Fault::Sheet {
            refusal: Refusal::Memory,
            bit: 0,
        },
        Err(fault) => fault,
    }
}

// Writes the rows of the sheet into `out`, and compares.
fn write_again(sheet: &[u8], counts: Counts, rows: &Rows, out: &mut [u8]) -> Result<Checked, Fault>
    requires rows { IsSheet sheet.now rows.now.courses.now rows.now.choices.now rows.now.bars.now }
    requires room { length sheet.now ≤ length out.old }
    ensures wrote { MatchResult result (λ k. Wrote rows.now.courses.now rows.now.choices.now rows.now.bars.now out.old out.new k.bytes) (λ _. ⊥) }
    ensures compared { MatchResult result (λ k. IsTrue k.same ↔ (take k.bytes out.new ≡ sheet.now)) (λ _. ⊥) }
    ensures counted { MatchResult result (λ k. k.counts ≡ counts) (λ _. ⊥) }
{
    let bytes = write(rows, out)?;
    Ok(Checked {
        counts,
        bytes,
        same: &out[..bytes] == sheet,
    })
}

// Reads the sheet, writes its rows into `out` and compares.
fn both_ways(
    sheet: &[u8],
    courses: &mut [CourseRow],
    choices: &mut [ChoiceRow],
    bars: &mut [BarRow],
    out: &mut [u8],
) -> Result<Checked, Fault>
    requires room { length sheet.now ≤ length out.old }
    ensures cases { Rechecking sheet.now courses.old courses.new choices.old choices.new bars.old bars.new out.old out.new result }
{
    let counts = read(sheet, courses, choices, bars)?;
    let rows = Rows {
        courses: &courses[..counts.courses],
        choices: &choices[..counts.choices],
        bars: &bars[..counts.bars],
    };
    write_again(sheet, counts, &rows, out)
}

// Fills the lists with the sheet's rows, and the front of `out` with the sheet written again.
// A refusal leaves all four as they were.
pub fn recheck(
    sheet: &[u8],
    courses: &mut [CourseRow],
    choices: &mut [ChoiceRow],
    bars: &mut [BarRow],
    out: &mut [u8],
) -> Result<Checked, Fault>
    ensures cases { Rechecking sheet.now courses.old courses.new choices.old choices.new bars.old bars.new out.old out.new result }
    ensures reads_back { ReadsBack }
    ensures writes_back { WritesBack }
    ensures one_sheet { OneSheet }
    ensures one_reading { OneReading }
    ensures reads_sheets { ReadsSheets }
    ensures writes_lawful { WritesLawful }
{
    if out.len() < sheet.len() {
        return Err(short_fault(sheet, out.len()));
    }
    both_ways(sheet, courses, choices, bars, out)
}
