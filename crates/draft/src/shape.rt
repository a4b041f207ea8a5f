// The shape of a draft: its courses, by their choice counts.
ghost use Rattle.std.specs.Prelude.{◌≡◌, ℕ, ◌+◌, ◌<◌, ◌≤◌, ◌↔◌, true, [], ◌∷◌, length, take, sum, IsTrue, IfSome, OnSome, slice_index};
ghost use Rattle.draft.specs.Labels.{label, label_of, named, pair_number, pair_of, pair_count, OneLabel, OnePair};
ghost use Rattle.draft.specs.Limits.{Limits};

pub use crate::labels::widest_pair;
use crate::labels::{between, pairs_among};
use crate::pairing::{Pairing, Side};
use crate::refusal::Refusal;

// The limits of a shape.
pub const MIN_COURSES: usize = 2;

pub const MAX_COURSES: usize = 24;

pub const MIN_CHOICES: u8 = 1;

pub const MAX_CHOICES: u8 = 8;

// From 2 to 24 courses, each with 1 to 8 choices: the first label of each course, and after the last
// course the number of labels. A fixed table with its length beside: nothing is allocated, and a shape
// is copied.
#[derive(Clone, Copy)]
pub struct Shape {
    len: usize,
    firsts: [u8; MAX_COURSES + 1],
    ghost few: { 2 ≤ len },
    ghost many: { len ≤ 24 },
    ghost from: { slice_index firsts 0 ≡ 0 },
    ghost each: { (k : ℕ) → k < len → (slice_index firsts k + 1 ≤ slice_index firsts (k + 1)) × (slice_index firsts (k + 1) ≤ slice_index firsts k + 8) },
}

// Whether the counts `a` are within the limits of a shape.
fn within_limits(a: &[u8]) -> bool
    ensures value { IsTrue result ↔ Limits a.now }
{
    (MIN_COURSES..=MAX_COURSES).contains(&a.len())
        && a.iter()
            .all(|count| (MIN_CHOICES..=MAX_CHOICES).contains(count))
}

// The first label of each course of the counts `a`, and after them the number of labels.
fn firsts_of(a: &[u8]) -> [u8; MAX_COURSES + 1]
    requires limits { Limits a.now }
    ensures value { (k : ℕ) → k ≤ length a.now → slice_index result k ≡ sum (take k a.now) }
{
    let mut firsts = [0; MAX_COURSES + 1];
    let mut labels = 0;
    for (i, count) in a.iter().enumerate() {
        labels += *count;
        firsts[i + 1] = labels;
    }
    firsts
}

impl<'a> TryFrom<&'a [u8]> for Shape {
    type Error = Refusal;

    ghost use Rattle.draft.specs.Shapes.{Shaped};

    ghost try_from_gives = { λ a result. Shaped a.now result };

    // The shape with these counts.
    fn try_from(counts: &'a [u8]) -> Result<Shape, Refusal> {
        if !within_limits(counts) {
            return Err(Refusal::Limit);
        }
        Ok(Shape::shaped(counts))
    }
}

impl Shape {
    ghost use Rattle.draft.specs.Shapes.{counts, Reshaped};

    // The shape with the counts `a`.
    fn shaped(a: &[u8]) -> Shape
        requires limits { Limits a.now }
        ensures value { counts result ≡ a.now }
    {
        Shape {
            len: a.len(),
            firsts: firsts_of(a),
        }
    }

    // Two courses with one choice each.
    pub fn new() -> Shape
        ensures value { counts result ≡ 1 ∷ 1 ∷ [] }
    {
        Shape::shaped(&[1, 1])
    }

    // Takes the counts `a`, or refuses them and stays as it is.
    pub fn set(&mut self, a: &[u8]) -> Result<(), Refusal>
        ensures cases { Reshaped a.now self.old self.new result }
    {
        *self = Shape::try_from(a)?;
        Ok(())
    }

    // The number of courses.
    pub fn courses(&self) -> usize
        ensures value { result ≡ length (counts self.now) }
        ensures bound { result ≤ 24 }
    {
        self.len
    }

    // The number of choices of course `i`, 0 where there is no such course.
    pub fn choices(&self, i: usize) -> usize
        ensures value { result ≡ slice_index (counts self.now) i }
        ensures bound { result ≤ 8 }
    {
        if i < self.len {
            usize::from(self.firsts[i + 1] - self.firsts[i])
        } else {
            0
        }
    }

    // The number of labels.
    pub fn labels(&self) -> usize
        ensures value { result ≡ sum (counts self.now) }
        ensures bound { result ≤ 192 }
    {
        usize::from(self.firsts[self.len])
    }

    // The label of a choice, where there is such a choice.
    pub fn label(&self, side: Side) -> Option<usize>
        ensures value { result ≡ label_of (counts self.now) side }
        ensures bound { IfSome result (λ u. u < 192) }
        ensures only { OnSome result (OneLabel (counts self.now) side) }
    {
        if side.choice < self.choices(side.course) {
            Some(usize::from(self.firsts[side.course]) + side.choice)
        } else {
            None
        }
    }

    // How many pair numbers there are.
    pub fn pair_numbers(&self) -> usize
        ensures value { result ≡ pair_count (counts self.now) }
        ensures bound { result ≤ 18336 }
    {
        pairs_among(self.labels())
    }

    // The pair number of a pairing, where it joins choices of two courses.
    pub fn pair(&self, pairing: Pairing) -> Option<usize>
        ensures value { result ≡ pair_of (counts self.now) pairing }
        ensures below { IfSome result (λ p. p < pair_count (counts self.now)) }
        ensures only { OnSome result (OnePair (counts self.now) pairing) }
    {
        if pairing.one.course == pairing.other.course {
            return None;
        }
        Some(between(self.label(pairing.one)?, self.label(pairing.other)?))
    }
}
