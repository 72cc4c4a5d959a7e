// Little-endian numbers and bits, read from a slice. A byte past the end reads as 0, so every index is allowed.
#![tactic(auto)]

ghost use Rattle.std.specs.Prelude.{◌+◌, ◌*◌, ◌<◌, ◌≤◌, ◌≡◌, length};
ghost use Rattle.laws.specs.Bytes.{byte_at, two_at, four_at, eight_at, bit};

pub mod sets;

#[tactic(auto, unfolding(laws::specs::Bytes::byte_at))]
pub fn byte_at(s: &[u8], i: usize) -> u8
    ensures { result ≡ byte_at s.now i }
{
    s.get(i).copied().unwrap_or(0)
}

// The number in the two bytes at i and i + 1. Without the test, i + 1 could overflow.
pub fn two_at(s: &[u8], i: usize) -> u16
    ensures { result ≡ two_at s.now i }
{
    if i < s.len() {
        u16::from_le_bytes([s[i], byte_at(s, i + 1)])
    } else {
        0
    }
}

// The number in the four bytes at i to i + 3.
pub fn four_at(s: &[u8], i: usize) -> u32
    ensures { result ≡ four_at s.now i }
{
    if i < s.len() {
        u32::from_le_bytes([
            s[i],
            byte_at(s, i + 1),
            byte_at(s, i + 2),
            byte_at(s, i + 3),
        ])
    } else {
        0
    }
}

// The number in the eight bytes from i on.
pub fn eight_at(s: &[u8], i: usize) -> u64
    ensures { result ≡ eight_at s.now i }
{
    if i < s.len() {
        u64::from(four_at(s, i)) + 0x1_0000_0000 * u64::from(four_at(s, i + 4))
    } else {
        0
    }
}

// The same without a test: the caller ensures that all the bytes are in the slice. A type parameter for the width would have each caller name it, and say no more.

#[tactic(auto, unfolding(laws::specs::Bytes::byte_at))]
pub fn byte_in(s: &[u8], i: usize) -> u8
    requires { i < length s.now }
    ensures { result ≡ byte_at s.now i }
{
    s[i]
}

pub fn two_in(s: &[u8], i: usize) -> u16
    requires { i + 2 ≤ length s.now }
    ensures { result ≡ two_at s.now i }
{
    u16::from_le_bytes([s[i], s[i + 1]])
}

pub fn four_in(s: &[u8], i: usize) -> u32
    requires { i + 4 ≤ length s.now }
    ensures { result ≡ four_at s.now i }
{
    u32::from_le_bytes([s[i], s[i + 1], s[i + 2], s[i + 3]])
}

// In two halves, which are shorter than a list of eight reads.
pub fn eight_in(s: &[u8], i: usize) -> u64
    requires { i + 8 ≤ length s.now }
    ensures { result ≡ eight_at s.now i }
{
    u64::from(four_in(s, i)) + 0x1_0000_0000 * u64::from(four_in(s, i + 4))
}

// Bit k of a byte. One function over the width would be no plainer: those that ask for a bit of a byte hold k in a byte, the others in a usize.
pub fn bit8(k: u8, x: u8) -> bool
    ensures { result ≡ bit k x }
{
    bit32(usize::from(k), u32::from(x))
}

// Bit k of a four-byte number.
pub fn bit32(k: usize, x: u32) -> bool
    ensures { result ≡ bit k x }
{
    k < 32 && (x >> k) % 2 == 1
}
