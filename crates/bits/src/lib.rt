// Single bits of bytes, most significant bit first.
#![tactic(auto)]

ghost use Rattle.std.specs.Prelude.{◌≡◌, ℕ, ◌/◌, ◌<◌, ◌≤◌, length, if◌then◌else◌, ◌≢◌, slice_index};
ghost use Rattle.bits.specs.Bits.{bit};

// Bit `k`, and 0 past the end.
pub fn bit_at(bytes: &[u8], k: usize) -> u8
    ensures value { result ≡ bit bytes.now k }
{
    if k / 8 >= bytes.len() {
        return 0;
    }
    (bytes[k / 8] >> (7 - k % 8)) % 2
}

// Makes bit `k` 1 or 0, where the bytes have such a bit. No other bit changes.
pub fn set_bit(bytes: &mut [u8], k: usize, on: bool)
    ensures here { k / 8 < length bytes.old → bit bytes.new k ≡ (if on then 1 else 0) }
    ensures others { (j : ℕ) → (j ≢ k) → bit bytes.new j ≡ bit bytes.old j }
    ensures past { length bytes.old ≤ k / 8 → bytes.new ≡ bytes.old }
    ensures rest { (i : ℕ) → (i ≢ k / 8) → slice_index bytes.new i ≡ slice_index bytes.old i }
{
    if k / 8 < bytes.len() {
        let old = bytes[k / 8];
        let shift = 7 - k % 8;
        let kept = old - ((old >> shift) % 2 << shift);
        bytes[k / 8] = kept + (u8::from(on) << shift);
    }
}
