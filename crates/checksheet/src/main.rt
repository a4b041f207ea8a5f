// Checks the term sheet in the file term.sheet and prints what it comes to.
#![tactic(auto)]

use anyhow::anyhow;
use draft::fault::Fault;
use draft::shape::{MAX_CHOICES, MAX_COURSES};
use layout::rows::{BarRow, ChoiceRow, CourseRow, MOST_BARS};
use sheet::checked::Checked;
use sheet::recheck::recheck;
use std::alloc::{AllocError, Global};
use std::io::ErrorKind;
use std::{fs, io};

// The choices of the largest sheet.
const MOST_CHOICES: usize = MAX_COURSES * MAX_CHOICES as usize;

// The file's bytes, none where there is no such file.
fn sheet_bytes(rt: &HostRuntime) -> io::Result<Vec<u8>> {
    match fs::read(rt, "term.sheet") {
        Err(e) if e.kind() == ErrorKind::NotFound => Ok(Vec::new(rt.alloc())),
        read => read,
    }
}

// The sheet checked in both directions, with lists for any sheet.
fn checked(heap: Global, bytes: &[u8]) -> Result<Result<Checked, Fault>, AllocError> {
    let mut courses = vec![in heap; CourseRow::default(); MAX_COURSES]?;
    let mut choices = vec![in heap; ChoiceRow::default(); MOST_CHOICES]?;
    let mut bars = vec![in heap; BarRow::default(); MOST_BARS]?;
    let mut out = vec![in heap; 0u8; bytes.len()]?;
    Ok(recheck(bytes, &mut courses, &mut choices, &mut bars, &mut out))
}

fn main(rt: HostRuntime) -> anyhow::Result<()> {
    let bytes = sheet_bytes(&rt)?;
    match checked(rt.alloc(), &bytes)? {
        Ok(found) => {
            if !found.same {
                return Err(anyhow!("the sheet written again differs"));
            }
            let n = found.counts;
            println!(rt; "ok {} {} {} {}", n.courses, n.choices, n.bars, found.bytes)?;
        }
        Err(fault) => println!(rt; "{fault}")?,
    }
    Ok(())
}
