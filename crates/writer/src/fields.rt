// Fields of bits put into bytes, most significant bit first.
ghost use Rattle.std.specs.Prelude.{◌≡◌, ◌+◌, ◌*◌, ◌^◌, ◌<◌, ◌≤◌, [], ◌∷◌, length};
ghost use Rattle.writer.specs.Putting.{Puts};

use bits::set_bit;

// Puts `value` into the `width` bits from `at` on, and no other bit changes.
fn put(out: &mut [u8], at: usize, width: u8, value: u16)
    requires early { at < 2 ^ 32 }
    requires narrow { width ≤ 16 }
    requires inside { at + width ≤ 8 * length out.old }
    requires fits { value < 2 ^ width }
    ensures fields { Puts out.old out.new at ((width, value) ∷ []) }
{
    for i in 0..width {
        let on = (value >> (width - 1 - i)) % 2 == 1;
        set_bit(out, at + usize::from(i), on);
    }
}

// Bytes that fields are put into one after another, and the bit where the next one begins.
#[derive(Drop)]
pub(crate) struct BitWriter<'a> {
    pub(crate) out: &'a mut [u8],
    pub(crate) at: usize,
}

impl<'a> BitWriter<'a> {
    ghost use Rattle.writer.specs.Writers.{Adds, HasRoom};

    // Puts `value` into the next `width` bits.
    pub(crate) fn put(&mut self, width: u8, value: u16)
        requires narrow { width ≤ 16 }
        requires fits { value < 2 ^ width }
        requires room { HasRoom self.old ((width, value) ∷ []) }
        ensures fields { Adds self.old self.new ((width, value) ∷ []) }
    {
        put(self.out, self.at, width, value);
        self.at += usize::from(width);
    }
}
