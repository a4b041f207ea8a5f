// What keeps a draft: every narrowing and every plan is written over any store.
ghost use Rattle.std.specs.Prelude.{◌≡◌};
ghost use Rattle.draft.specs.Drafts.{Draft, Lawful, strike};
ghost use Rattle.draft.specs.Frames.{Preorder};

use crate::pairing::Pairing;

// A store means a draft: a shape, and the set of the pairings that stand.
pub trait Store {
    // The draft that the store means.
    ghost draft: { Self → Draft };

    // The law: the shape is within its limits, and the set has only pairings of two of its courses.
    ghost laws: { (s : Self) → Lawful (draft s) };

    // What the store keeps besides its draft, whatever is struck: a relation between two states.
    ghost frame: { Self → Self → Type 0 };

    ghost preorder: { Preorder frame };

    // The number of courses.
    fn courses(&self) -> usize
        ensures value { result ≡ (draft self.now).courses };

    // The number of choices of course `i`, 0 where there is no such course.
    fn choices(&self, i: usize) -> usize
        ensures value { result ≡ (draft self.now).choices i };

    // Whether the pairing stands; one that is outside the shape, or of one course, does not.
    fn stands(&self, pairing: Pairing) -> bool
        ensures value { result ≡ (draft self.now).stands pairing };

    // Takes the pairing out of the set, where there is such a pairing.
    fn strike(&mut self, pairing: Pairing)
        ensures draft { draft self.new ≡ strike (draft self.old) pairing }
        ensures frame { frame self.old self.new };
}
