// The conflicts as a matrix of bits. Eight groups are a band. The conflicts of one band with another are a tile: a number of 64 bits in
// eight rows of eight bits, the first row lowest.
#![tactic(auto)]

ghost use Rattle.std.specs.Prelude.{ℕ, ◌+◌, ◌*◌, ◌/◌, ◌<◌, ◌≤◌, true, ◌≡◌, length};
ghost use Rattle.laws.specs.Bytes.{byte_at, bit};
ghost use Rattle.rules.specs.Personality.{body_at, group_count};
ghost use Rattle.read_conflicts_matrix.specs.Matrix.{ByteRows, BandRows, ConflictRows, SetRows, SetTiles};

use base_bytes::byte_in;
use read_layout::Layout;
use std::marker::Model;

// Bit 0 of each row.
const LOWEST: u64 = 0x0101_0101_0101_0101;

// A personality whose counts P and N are in their ranges, with all records of kinds 3 and 4 in the bytes. A contract sees the bytes. The
// layout is behind a reference: with a copy of it the reading of the largest site took 73 instructions more, of a site of two phases 16.
#[derive(Drop)]
pub struct Matrix<'a> {
    pub bytes: &'a [u8],
    pub layout: &'a Layout,
}

impl<'a> Model for Matrix<'a> {
    ghost use Rattle.std.specs.Prelude.{List, ℕ};
    ghost use Rattle.read_conflicts_matrix.specs.Matrix.{MatrixFits};

    ghost Value = { List ℕ };

    ghost view = { λ m. m.bytes.now };

    ghost invariant = { λ m. MatrixFits m.bytes.now m.layout.now };
}

impl<'a> Matrix<'a> {
    // N, the number of groups.
    pub fn groups(&self) -> usize
        ensures { (result ≡ group_count self.now) × (1 ≤ result) × (result ≤ 32) }
    {
        usize::from(self.layout.groupcount)
    }

    // The number of bands. The last one may have fewer than eight groups.
    pub fn bands(&self) -> usize
        ensures { (result ≡ (group_count self.now + 7) / 8) × (result ≤ 4) }
    {
        self.groups().div_ceil(8)
    }
}

// The tile whose row r is the byte at `at + r * stride`.
fn tile(s: &[u8], at: usize, stride: usize, rows: usize) -> u64
    requires { (at ≤ 5000) × (stride ≤ 4) × (rows ≤ 8) × ((r : ℕ) → r < rows → at + r * stride < length s.now) }
    ensures { ByteRows s.now at stride rows result }
{
    let mut t: u64 = 0;
    for r in (0..rows).rev() {
        t = t * 256 + u64::from(byte_in(s, at + r * stride));
    }
    t
}

// The tile of band a in a section of `count` records of `width` bytes. Each row is byte `k` of one record. The second clause says what the
// type of `s` says and a `Matrix` does not: each byte is below 256.
fn band_tile(s: &[u8], head: usize, width: usize, count: usize, a: usize, k: usize) -> u64
    requires { (head ≤ 4000) × (width ≤ 4) × (count ≤ 32) × (8 * a < count) × (k < width)
        × (body_at head + count * width ≤ length s.now) }
    ensures { BandRows s.now head width count a k result × ((i : ℕ) → byte_at s.now i < 256) }
{
    let left = count - 8 * a;
    let at = head + 4 + 8 * a * width + k;
    // The call with a constant number of rows is compiled without a loop.
    if left < 8 {
        tile(s, at, width, left)
    } else {
        tile(s, at, width, 8)
    }
}

// The conflicts of band a with band b.
pub fn conflict_tile(m: &Matrix, a: usize, b: usize) -> u64
    requires { (8 * a < group_count m.now) × (b < 4) }
    ensures { ConflictRows m.now a b result }
{
    band_tile(m.bytes, m.layout.conflicts, 4, m.groups(), a, b)
}

// The phase sets of band a.
pub fn set_tile(m: &Matrix, a: usize) -> u64
    requires { 8 * a < group_count m.now }
    ensures { SetRows m.now a result }
{
    band_tile(m.bytes, m.layout.groups, 2, m.groups(), a, 0)
}

// The phase sets of all bands.
pub fn set_tiles(m: &Matrix) -> [u64; 4]
    ensures { SetTiles m.now result }
{
    let mut tiles = [0u64; 4];
    for a in 0..m.bands() {
        tiles[a] = set_tile(m, a);
    }
    tiles
}

// The bits that the conflicts of two bands may not have: those of `given`, and those of groups that share a phase. In `sets` each row has
// the phases of one group of the first band. In `members` each row has the groups of the second band in one phase.
pub fn barred(given: u64, sets: u64, members: u64, phases: usize) -> u64
    requires { phases ≤ 7 }
    ensures { ((k : ℕ) → bit k given ≡ true → bit k result ≡ true)
        × ((r c p : ℕ) → r < 8 → c < 8 → p < phases → bit (8 * r + p) sets ≡ true → bit (8 * p + c) members ≡ true → bit (8 * r + c) result ≡ true) }
{
    let mut found = given;
    let mut left = sets;
    let mut right = members;
    // Shifted by one phase a turn: with shifts by p and 8 * p here and one call in band_tile, a step of the largest site read its personality in
    // 3,779 instructions and not in 3,171.
    for _ in 0..phases {
        found |= (left & LOWEST) * (right % 256);
        left >>= 1;
        right >>= 8;
    }
    found
}
