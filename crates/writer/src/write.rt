// Writing the sheet of rows.
ghost use Rattle.std.specs.Prelude.{◌≡◌, ◌≤◌, ◌++◌, length, take, drop, replicate};
ghost use Rattle.layout.specs.Layout.{IsSheet, bytes_of};
ghost use Rattle.writer.specs.Writing.{Writing};

use crate::fields::BitWriter;
use crate::put::put_sheet;
use crate::rows_check::{CheckedRows, check_rows};
use draft::fault::Fault;
use draft::refusal::Refusal;
use layout::faults::ensure;
use layout::rows::Rows;

// How many bytes the sheet of the rows takes.
fn sheet_bytes(checked: &CheckedRows) -> usize
    ensures value { result ≡ bytes_of checked.now.rows.courses.now checked.now.rows.choices.now checked.now.rows.bars.now }
{
    let rows = &checked.rows;
    (21 + 9 * rows.courses.len() + 8 * rows.choices.len() + 16 * rows.bars.len() + 7) / 8
}

// Makes the first `n` bytes 0.
fn clear(out: &mut [u8], n: usize)
    requires inside { n ≤ length out.old }
    ensures cleared { out.new ≡ replicate n 0 ++ drop n out.old }
{
    out[..n].fill(0);
}

// Makes the first `bytes` bytes be the sheet of the rows, which takes that many.
fn fill(out: &mut [u8], bytes: usize, checked: &CheckedRows)
    requires all { bytes ≡ bytes_of checked.now.rows.courses.now checked.now.rows.choices.now checked.now.rows.bars.now }
    requires room { bytes ≤ length out.old }
    ensures sheet { IsSheet (take bytes out.new) checked.now.rows.courses.now checked.now.rows.choices.now checked.now.rows.bars.now }
    ensures rest { drop bytes out.new ≡ drop bytes out.old }
{
    clear(out, bytes);
    let mut writer = BitWriter { out, at: 0 };
    put_sheet(&mut writer, checked);
}

// Writes the sheet of the rows into the front of `out` and answers its length in bytes.
// Refuses rows that have no sheet, and then an `out` that is too short; `out` is then as it was.
pub fn write(rows: &Rows, out: &mut [u8]) -> Result<usize, Fault>
    ensures cases { Writing rows.now.courses.now rows.now.choices.now rows.now.bars.now out.old out.new result }
{
    let checked = check_rows(rows)?;
    let bytes = sheet_bytes(&checked);
    ensure(bytes <= out.len(), Refusal::Memory, 0)?;
    fill(out, bytes, &checked);
    Ok(bytes)
}
