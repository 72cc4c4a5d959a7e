// Tiles: eight rows of eight bits in one number. Row r is byte r, lowest first, and its bit c is bit c of that byte.
#![tactic(auto)]

ghost use Rattle.std.specs.Prelude.{ℕ, ◌+◌, ◌*◌, ◌<◌, true, ◌≡◌};
ghost use Rattle.laws.specs.Bytes.{bit};
ghost use Rattle.read_conflicts_tiles.specs.Swaps.{source, swaps};

// Three kinds of swaps at the diagonal: single bits, blocks of two by two, blocks of four by four. LOW has the lower bit of each pair, and
// the upper bit is SHIFT places above it.
const SINGLES_LOW: u64 = 0x00AA_00AA_00AA_00AA;

const SINGLES_SHIFT: u32 = 7;

const TWOS_LOW: u64 = 0x0000_CCCC_0000_CCCC;

const TWOS_SHIFT: u32 = 14;

const FOURS_LOW: u64 = 0x0000_0000_F0F0_F0F0;

const FOURS_SHIFT: u32 = 28;

// The number with each bit of `low` swapped with the bit that is `shift` above it: if the two differ, both are flipped.
fn swapped(x: u64, low: u64, shift: u32) -> u64
    requires { (shift < 64) × (swaps low shift ≡ true) }
    ensures { (k : ℕ) → k < 64 → (source low shift k < 64) × (bit k result ≡ bit (source low shift k) x) }
{
    let unlike = (x ^ (x >> shift)) & low;
    x ^ unlike ^ (unlike << shift)
}

// The tile mirrored at its diagonal: bit c of row r becomes bit r of row c.
#[tactic(auto, unfolding(laws::specs::Bytes::bit, laws::specs::Folds::all_of, crate::specs::Swaps::upper, crate::specs::Swaps::source, crate::specs::Swaps::placed, crate::specs::Swaps::swaps))]
pub fn mirrored(tile: u64) -> u64
    ensures { (r c : ℕ) → r < 8 → c < 8 → bit (8 * c + r) result ≡ bit (8 * r + c) tile }
{
    let singles = swapped(tile, SINGLES_LOW, SINGLES_SHIFT);
    let twos = swapped(singles, TWOS_LOW, TWOS_SHIFT);
    swapped(twos, FOURS_LOW, FOURS_SHIFT)
}
