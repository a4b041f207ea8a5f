// Fields of bits read from bytes, most significant bit first.
ghost use Rattle.std.specs.Prelude.{◌≡◌, ◌+◌, ◌^◌, ◌<◌, ◌≤◌, OnOk};
ghost use Rattle.bits.specs.Bits.{bit, val};
ghost use Rattle.layout.specs.Faults.{Tells};
ghost use Rattle.reader.specs.Passes.{Yields};
ghost use Rattle.reader.specs.Verdict.{ends};

use bits::bit_at;
use draft::fault::Fault;
use draft::refusal::Refusal;
use layout::faults::ensure;

// A sheet, and the bit where the next field begins.
#[derive(Clone, Copy)]
pub(crate) struct BitReader<'a> {
    pub(crate) sheet: &'a [u8],
    pub(crate) at: usize,
}

impl<'a> BitReader<'a> {
    ghost use Rattle.reader.specs.Readers.{Moves};

    // Moves on over `bits` bits.
    pub(crate) fn skip(&mut self, bits: usize)
        requires early { self.old.at + bits < 2 ^ 32 }
        ensures next { Moves self.old self.new bits }
    {
        self.at += bits;
    }

    // The next bit, and 0 past the end.
    pub(crate) fn bit(&mut self) -> u8
        requires early { self.old.at < 2 ^ 33 }
        ensures value { result ≡ bit self.old.sheet.now self.old.at }
        ensures next { Moves self.old self.new 1 }
    {
        let bit = bit_at(self.sheet, self.at);
        self.at += 1;
        bit
    }

    // The number that the next `width` bits mean, with zeros past the end.
    pub(crate) fn value(&mut self, width: u8) -> u16
        requires early { self.old.at < 2 ^ 32 }
        requires narrow { width ≤ 16 }
        ensures value { result ≡ val self.old.sheet.now self.old.at width }
        ensures bound { result < 2 ^ width }
        ensures next { Moves self.old self.new width }
    {
        let mut v = 0;
        for _ in 0..width {
            v = v * 2 + u16::from(self.bit());
        }
        v
    }

    // Whether the sheet has the next `width` bits.
    pub(crate) fn check_has(&self, width: u8) -> Result<(), Fault>
        requires early { self.now.at < 2 ^ 32 }
        ensures value { Tells (ends self.now.sheet.now self.now.at width) result }
    {
        let bytes = (self.at + usize::from(width)).div_ceil(8);
        ensure(bytes <= self.sheet.len(), Refusal::SheetEnds, self.at)
    }

    // The field of the next `width` bits, unless the sheet ends inside it.
    pub(crate) fn field(&mut self, width: u8) -> Result<u16, Fault>
        requires early { self.old.at < 2 ^ 32 }
        requires narrow { width ≤ 16 }
        ensures value { Yields (ends self.old.sheet.now self.old.at width) (λ v. (v ≡ val self.old.sheet.now self.old.at width) × (v < 2 ^ width)) result }
        ensures next { OnOk result (Moves self.old self.new width) }
    {
        self.check_has(width)?;
        Ok(self.value(width))
    }
}
