// A what-if: a store that tries strikes out over another store and leaves that one as it is.
ghost use Rattle.std.specs.Prelude.{◌≡◌, ◌<◌, true, ◌&&◌, replicate, IfSome};
ghost use Rattle.bits.specs.Bits.{is_set};
ghost use Rattle.draft.specs.Drafts.{strike};
ghost use Rattle.draft.specs.Labels.{named, pair_number, widest};
ghost use Rattle.stores.specs.FrameLaws.{same_part};
ghost use Rattle.stores.specs.Marks.{Marked};
ghost use Rattle.stores.specs.WhatIfLaws.{what_if_lawful};
ghost use Rattle.stores.specs.WhatIfs.{what_if, mark_of};

use crate::marks::{is_set, set_bit_of};
use draft::pairing::Pairing;
use draft::shape::widest_pair;
use draft::store::Store;

// The number of the pairing's mark, where the store below has such a pairing in its shape.
fn mark_number<S: Store>(below: &S, pairing: Pairing) -> Option<usize>
    ensures value { result ≡ mark_of (S.Store.draft below.now) pairing }
    ensures bound { IfSome result (λ n. n < 18336) }
{
    let Pairing { one, other } = pairing;
    if one.choice >= below.choices(one.course) || other.choice >= below.choices(other.course) {
        return None;
    }
    widest_pair(pairing)
}

// A layer over any store: what stands below and has no mark here.
#[derive(Drop)]
pub struct WhatIf<S> {
    below: S,
    marks: [u8; 2292],
}

impl<S: Store> WhatIf<S> {
    // Lays an empty layer over a store.
    pub fn lay(below: S) -> WhatIf<S>
        ensures below { result.below ≡ below }
        ensures marks { result.marks ≡ replicate 2292 0 }
        ensures draft { what_if (S.Store.draft result.below) result.marks ≡ S.Store.draft below }
    {
        WhatIf {
            below,
            marks: [0u8; 2292],
        }
    }

    // Takes the layer off: the store below, as it is.
    pub fn take_off(self) -> S
        ensures below { result ≡ self.below }
    {
        let WhatIf { below, marks: _ } = self;
        below
    }

    // Whether the pairing has a mark.
    fn has_mark(&self, pairing: Pairing) -> bool
        ensures value { result ≡ (named widest pairing && is_set self.now.marks (pair_number widest pairing)) }
        ensures standing { (S.Store.draft self.now.below).stands pairing ≡ true → result ≡ is_set self.now.marks (pair_number widest pairing) }
    {
        widest_pair(pairing).is_some_and(|n| is_set(&self.marks, n))
    }
}

impl<S: Store> Store for WhatIf<S> {
    ghost draft = { λ s. what_if (S.Store.draft s.below) s.marks };

    ghost laws = { λ s. what_if_lawful (S.Store.draft s.below) s.marks (S.Store.laws s.below) };

    ghost frame = { λ s t. s.below ≡ t.below };

    ghost preorder = { same_part (λ s. s.below) };

    fn courses(&self) -> usize {
        self.below.courses()
    }

    fn choices(&self, i: usize) -> usize {
        self.below.choices(i)
    }

    fn stands(&self, pairing: Pairing) -> bool {
        self.below.stands(pairing) && !self.has_mark(pairing)
    }

    // Marks the pairing; the store below stays as it is.
    fn strike(&mut self, pairing: Pairing)
        ensures draft { what_if (S.Store.draft self.new.below) self.new.marks ≡ strike (what_if (S.Store.draft self.old.below) self.old.marks) pairing }
        ensures frame { self.old.below ≡ self.new.below }
        ensures marks { Marked (mark_of (S.Store.draft self.old.below) pairing) self.old.marks self.new.marks }
    {
        set_bit_of(&mut self.marks, mark_number(&self.below, pairing), true);
    }
}
