// A draft in the caller's bytes.
ghost use Rattle.std.specs.Prelude.{◌≡◌, length};
ghost use Rattle.draft.specs.Drafts.{strike};
ghost use Rattle.draft.specs.Labels.{pair_of};
ghost use Rattle.draft.specs.Shapes.{counts};
ghost use Rattle.stores.specs.Packed.{packed_draft, packed_bytes, Cleared, PackedFrame, Room};
ghost use Rattle.stores.specs.PackedLaws.{packed_laws, packed_preorder};

use crate::marks::{is_set, set_bit_of};
use draft::pairing::Pairing;
use draft::refusal::Refusal;
use draft::shape::Shape;
use draft::store::Store;

// One bit for each pair number, most significant bit first, 1 where the pairing stands. A bit that the
// bytes lack counts as 0.
#[derive(Drop)]
pub struct Packed<'a, 'b> {
    shape: &'b Shape,
    bits: &'a mut [u8],
}

impl<'a, 'b> Packed<'a, 'b> {
    // The bytes that a draft of this shape takes.
    pub fn bytes(shape: &Shape) -> usize
        ensures value { result ≡ packed_bytes (counts shape.now) }
    {
        (shape.pair_numbers() + 7) / 8
    }

    // The opening's check: whether the bytes suffice.
    pub fn check(shape: &Shape, bits: &[u8]) -> Result<(), Refusal>
        ensures cases { Room (counts shape.now) (length bits.now) result }
    {
        if bits.len() < Packed::bytes(shape) {
            return Err(Refusal::Memory);
        }
        Ok(())
    }

    // The store over these bytes as they are. Nothing is refused.
    pub fn new(shape: &'b Shape, bits: &'a mut [u8]) -> Packed<'a, 'b>
        ensures shape { result.shape.now ≡ shape.now }
        ensures bits { result.bits.now ≡ bits.old }
        ensures loan { result.bits.ghost_name ≡ bits.entry.ghost_name }
        ensures draft { packed_draft (counts result.shape.now) result.bits.now ≡ packed_draft (counts shape.now) bits.old }
    {
        Packed { shape, bits }
    }
}

impl<'a, 'b> Store for Packed<'a, 'b> {
    ghost draft = { λ s. packed_draft (counts s.shape.now) s.bits.now };

    ghost laws = { λ s. packed_laws s.shape.now s.bits.now };

    ghost frame = { λ s t. PackedFrame (counts s.shape.now) s.bits.ghost_name s.bits.now (counts t.shape.now) t.bits.ghost_name t.bits.now };

    ghost preorder = { packed_preorder (λ s. counts s.shape.now) (λ s. s.bits.ghost_name) (λ s. s.bits.now) };

    fn courses(&self) -> usize {
        self.shape.courses()
    }

    fn choices(&self, i: usize) -> usize {
        self.shape.choices(i)
    }

    fn stands(&self, pairing: Pairing) -> bool {
        self.shape
            .pair(pairing)
            .is_some_and(|n| is_set(self.bits, n))
    }

    // Takes the pairing out of the set: its bit is 0, and every other bit and byte is as it was.
    fn strike(&mut self, pairing: Pairing)
        ensures draft { packed_draft (counts self.new.shape.now) self.new.bits.now ≡ strike (packed_draft (counts self.old.shape.now) self.old.bits.now) pairing }
        ensures frame { PackedFrame (counts self.old.shape.now) self.old.bits.ghost_name self.old.bits.now (counts self.new.shape.now) self.new.bits.ghost_name self.new.bits.now }
        ensures bits { Cleared (pair_of (counts self.old.shape.now) pairing) self.old.bits.now self.new.bits.now }
    {
        set_bit_of(self.bits, self.shape.pair(pairing), false);
    }
}
