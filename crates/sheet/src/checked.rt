// What a sheet that is checked in both directions comes to.
use layout::rows::Counts;

// How many rows and bytes the sheet has, and whether it was written again as it stood: an answer of its
// own, since the numbers hold whatever it is.
#[derive(Clone, Copy, PartialEq, Eq, Debug)]
pub struct Checked {
    pub counts: Counts,
    pub bytes: usize,
    pub same: bool,
}
