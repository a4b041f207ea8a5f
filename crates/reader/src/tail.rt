// What follows the courses: the bars, and the end of the sheet.
ghost use Rattle.std.specs.Prelude.{◌≡◌, ◌*◌, ◌^◌, ◌<◌, ◌≤◌, OnOk};
ghost use Rattle.draft.specs.Limits.{Limits};
ghost use Rattle.draft.specs.Shapes.{counts};
ghost use Rattle.bits.specs.Bits.{val};
ghost use Rattle.layout.specs.Faults.{Tells};
ghost use Rattle.layout.specs.Layout.{counts_of};
ghost use Rattle.reader.specs.Decoded.{bar_at};
ghost use Rattle.reader.specs.Passes.{Yields};
ghost use Rattle.reader.specs.Readers.{Moves};
ghost use Rattle.reader.specs.Verdict.{next_fault, bars_fault, bits_fault, fill_fault, tail_fault};

use crate::decode::Decode;
use crate::fields::BitReader;
use draft::fault::Fault;
use draft::refusal::Refusal;
use draft::shape::Shape;
use layout::bars::check_bar;
use layout::faults::ensure;
use layout::rows::{BarRow, CourseRow};
use layout::shapes::shape_of;
use layout::widths::{BAR_WIDTH, BARS_WIDTH};

// The next bar, where it is good after the bar `before`.
fn check_next(
    reader: &mut BitReader,
    shape: &Shape,
    before: Option<BarRow>,
) -> Result<BarRow, Fault>
    requires early { reader.old.at < 2 ^ 30 }
    ensures value { Yields (next_fault reader.old.sheet.now (counts shape.now) before reader.old.at) (λ bar. bar ≡ bar_at reader.old.sheet.now reader.old.at) result }
    ensures next { OnOk result (Moves reader.old reader.new 16) }
{
    let at = reader.at;
    reader.check_has(BAR_WIDTH)?;
    let bar = BarRow::decode(reader);
    check_bar(shape, before, bar, at)?;
    Ok(bar)
}

// The next `count` bars.
fn check_bars(reader: &mut BitReader, shape: &Shape, count: usize) -> Result<(), Fault>
    requires early { reader.old.at < 2 ^ 20 }
    requires few { count ≤ 4095 }
    ensures value { Tells (bars_fault reader.old.sheet.now (counts shape.now) reader.old.at count) result }
    ensures next { OnOk result (Moves reader.old reader.new (16 * count)) }
{
    let mut before = None;
    for _ in 0..count {
        before = Some(check_next(reader, shape, before)?);
    }
    Ok(())
}

// Zeros in the next `count` bits.
fn check_zeros(reader: &mut BitReader, count: usize) -> Result<(), Fault>
    requires early { reader.old.at < 2 ^ 32 }
    requires few { count < 8 }
    ensures value { Tells (bits_fault reader.old.sheet.now reader.old.at count) result }
    ensures next { OnOk result (Moves reader.old reader.new count) }
{
    for _ in 0..count {
        let at = reader.at;
        ensure(reader.bit() == 0, Refusal::Filling, at)?;
    }
    Ok(())
}

// The fields end here: zeros fill the byte, and no byte follows.
fn check_end(reader: &mut BitReader) -> Result<(), Fault>
    requires early { reader.old.at < 2 ^ 32 }
    ensures value { Tells (fill_fault reader.old.sheet.now reader.old.at) result }
{
    let bytes = reader.at.div_ceil(8);
    check_zeros(reader, bytes * 8 - reader.at)?;
    ensure(reader.sheet.len() <= bytes, Refusal::Filling, reader.at)
}

// How many bars follow the courses.
pub(crate) fn check_tail(reader: &mut BitReader, courses: &[CourseRow]) -> Result<usize, Fault>
    requires early { reader.old.at < 2 ^ 19 }
    requires limits { Limits (counts_of courses.now) }
    ensures value { Yields (tail_fault reader.old.sheet.now (counts_of courses.now) reader.old.at) (λ m. m ≡ val reader.old.sheet.now reader.old.at 12) result }
{
    let Ok(shape) = shape_of(courses) else {
        unreachable!()
    };
    let bars = usize::from(reader.field(BARS_WIDTH)?);
    check_bars(reader, &shape, bars)?;
    check_end(reader)?;
    Ok(bars)
}
