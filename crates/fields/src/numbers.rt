// Numbers in bytes, most significant first.
ghost use Rattle.std.specs.Prelude.{◌≡◌, ◌+◌, ◌^◌, ◌≤◌, ◌<◌};
ghost use Rattle.fields.specs.Field.{byte, bit, field, bytes};

// Byte i of s; past the end 0.
#[tactic(auto, unfolding(crate::specs::Field::byte))]
pub fn byte(s: &[u8], i: usize) -> u8
    ensures { result ≡ byte i s.now }
{
    s.get(i).copied().unwrap_or(0)
}

// Bit k of a byte, counted from the least significant.
#[tactic(auto, unfolding(crate::specs::Field::bit))]
pub fn bit(b: u8, k: u8) -> bool
    requires { k < 8 }
    ensures { result ≡ bit k b }
{
    (b >> k) % 2 == 1
}

// The number in the bytes of s from at on, one loop for every width. No `from_be_bytes`: bytes past the end count as 0.
pub fn number(s: &[u8], at: usize, width: usize) -> u64
    requires { (width ≤ 8) × (at + width < 2 ^ 16) }
    ensures { (result ≡ field at width s.now) × (result < 256 ^ width) }
{
    let mut number: u64 = 0;
    for i in 0..width {
        number = number * 256 + u64::from(byte(s, at + i));
    }
    number
}

// The lowest N bytes of a number, whatever is above them.
#[tactic(auto, using(crate::proofs::FieldLaws::last_bytes))]
pub fn bytes<const N: usize>(x: u64) -> [u8; N]
    requires { N ≤ 8 }
    ensures { result ≡ bytes N x }
{
    let mut lowest = [0; N];
    lowest.copy_from_slice(&x.to_be_bytes()[8 - N..]);
    lowest
}
