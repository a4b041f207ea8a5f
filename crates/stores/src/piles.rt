// Piles of what-ifs over any store, and what holds of every store.
ghost use Rattle.std.specs.Prelude.{◌≡◌, false};
ghost use Rattle.draft.specs.Drafts.{strike};
ghost use Rattle.draft.specs.Pairings.{mirrored};

use crate::packed::Packed;
use crate::what_if::WhatIf;
use draft::pairing::Pairing;
use draft::shape::Shape;
use draft::store::Store;

// Whether the pairing stands, asked by its other name.
pub fn stands_mirrored<S: Store>(store: &S, pairing: Pairing) -> bool
    ensures value { result ≡ (S.Store.draft store.now).stands pairing }
    ensures names { (s : S) (p : Pairing) → (S.Store.draft s).stands p ≡ (S.Store.draft s).stands (mirrored p) }
    ensures strikes { (s : S) (p : Pairing) → strike (S.Store.draft s) p ≡ strike (S.Store.draft s) (mirrored p) }
{
    store.stands(pairing.mirrored())
}

// Strikes a pairing and asks for it by its other name.
fn struck<S: Store>(store: &mut S, pairing: Pairing) -> bool
    ensures value { result ≡ false }
    ensures draft { S.Store.draft store.new ≡ strike (S.Store.draft store.old) pairing }
    ensures frame { S.Store.frame store.old store.new }
{
    store.strike(pairing);
    stands_mirrored(store, pairing)
}

// Lays two what-ifs over a store, strikes a pairing in the upper one, asks for it there by its other
// name, and takes both off: the store, which comes back in any case, and what the question answered.
pub fn tried<S: Store>(store: S, pairing: Pairing) -> (S, bool)
    ensures back { result.0 ≡ store }
    ensures struck { result.1 ≡ false }
{
    let mut upper = WhatIf::lay(WhatIf::lay(store));
    let stands = struck(&mut upper, pairing);
    (upper.take_off().take_off(), stands)
}

// The same over the caller's bytes: the packed store over them is given back, with the bytes as they
// were.
pub fn tried_on_bits<'a, 'b>(
    shape: &'b Shape,
    bits: &'a mut [u8],
    pairing: Pairing,
) -> (Packed<'a, 'b>, bool)
    ensures shape { result.0.shape.now ≡ shape.now }
    ensures bits { result.0.bits.now ≡ bits.old }
    ensures loan { result.0.bits.ghost_name ≡ bits.entry.ghost_name }
    ensures struck { result.1 ≡ false }
{
    tried(Packed::new(shape, bits), pairing)
}
