// Bits for pairings, one for each number: those of a packed draft, and the marks of the other stores.
ghost use Rattle.std.specs.Prelude.{◌≡◌, ◌/◌, ◌<◌, length, IfSome};
ghost use Rattle.std.specs.Bool.{OnTrue};
ghost use Rattle.bits.specs.Bits.{is_set};
ghost use Rattle.stores.specs.Marks.{Made};

use bits::{bit_at, set_bit};

// Whether the bit of number `n` is 1.
pub(crate) fn is_set(bits: &[u8], n: usize) -> bool
    ensures value { result ≡ is_set bits.now n }
{
    bit_at(bits, n) == 1
}

// Makes the bit of a pairing's number 1 or 0, where the pairing has a number.
pub(crate) fn set_bit_of(bits: &mut [u8], number: Option<usize>, on: bool)
    requires there { OnTrue on (IfSome number (λ n. n / 8 < length bits.old)) }
    ensures bits { Made on number bits.old bits.new }
{
    if let Some(n) = number {
        set_bit(bits, n, on);
    }
}
