// The tests of a bar that reading and writing share.
ghost use Rattle.std.specs.Prelude.{◌≡◌};
ghost use Rattle.draft.specs.Shapes.{counts};
ghost use Rattle.layout.specs.Faults.{Tells, above, bar_fault, sound};

use crate::faults::ensure;
use crate::rows::BarRow;
use draft::fault::Fault;
use draft::refusal::Refusal;
use draft::shape::Shape;

// Whether the bar's courses rise and have the choices that it names.
fn is_sound(shape: &Shape, bar: BarRow) -> bool
    ensures value { result ≡ sound (counts shape.now) bar }
{
    bar.course < bar.higher
        && usize::from(bar.choice) < shape.choices(usize::from(bar.course))
        && usize::from(bar.partner) < shape.choices(usize::from(bar.higher))
}

// Whether the bar is above the bar before it, by their numbers: field by field would be another order
// where a field is too large.
fn is_above(before: Option<BarRow>, bar: BarRow) -> bool
    ensures value { result ≡ above before bar }
{
    match before {
        None => true,
        Some(last) => u32::from(last) < u32::from(bar),
    }
}

// Whether the bar, whose field begins at bit `at`, names choices of the shape and is above the bar before it.
pub fn check_bar(shape: &Shape, before: Option<BarRow>, bar: BarRow, at: usize) -> Result<(), Fault>
    ensures value { Tells (bar_fault (counts shape.now) before bar at) result }
{
    ensure(is_sound(shape, bar), Refusal::BarName, at)?;
    ensure(is_above(before, bar), Refusal::BarOrder, at)
}
