// Tests that tell a fault of a sheet.
ghost use Rattle.layout.specs.Faults.{Tells, unless};

use draft::fault::Fault;
use draft::refusal::Refusal;

// The sheet's fault at bit `bit`, unless the test holds.
pub fn ensure(ok: bool, refusal: Refusal, bit: usize) -> Result<(), Fault>
    ensures value { Tells (unless ok refusal bit) result }
{
    if ok {
        Ok(())
    } else {
        Err(Fault::Sheet { refusal, bit })
    }
}
