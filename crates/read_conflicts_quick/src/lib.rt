// A quick test of numbers 9 and 10 together. If it passes, all records are good. If it fails, the record-by-record search in the paper's
// order decides, so a false alarm only costs time.
#![tactic(auto)]

ghost use Rattle.std.specs.Prelude.{ℕ, ◌*◌, ◌<◌, ◌≤◌, ◌^◌, true, false, not, ◌≡◌, leb};
ghost use Rattle.rules.specs.Personality.{group_count, conflict_set, bad_conflict, conflict_in_phase};
ghost use Rattle.laws.specs.Folds.{any_of};
ghost use Rattle.read_conflicts_matrix.specs.Matrix.{SetRows, SetTiles};
ghost use Rattle.read_conflicts_quick.specs.Quick.{MemberRows, Matched, BlockRight, BandRight, AllRight};

use base_bytes::four_in;
use read_conflicts_matrix::{Matrix, barred, conflict_tile, set_tile, set_tiles};
use read_conflicts_tiles::mirrored;
use read_groups::sets::reaches32;

// Bit r of each row r.
const DIAGONAL: u64 = 0x8040_2010_0804_0201;

// Whether a tile is the mirror image of `back`, the tile of the other direction, and has no bit that `barred` excludes.
fn matched(t: u64, back: u64, given: u64, sets: u64, members: u64, phases: usize) -> bool
    requires { phases ≤ 7 }
    ensures { result ≡ true → Matched t back given sets members phases }
{
    mirrored(t) == back && t & barred(given, sets, members, phases) == 0
}

// Whether the conflicts among the groups of band k are right.
fn own_block(m: &Matrix, k: usize, sets: u64, members: u64) -> bool
    requires { (8 * k < group_count m.now) × SetRows m.now k sets × MemberRows m.now k members }
    ensures { result ≡ true → BlockRight m.now k k }
{
    let phases = usize::from(m.layout.phasecount);
    let t = conflict_tile(m, k, k);
    matched(t, t, DIAGONAL, sets, members, phases)
}

// Whether the conflicts between band a and an earlier band k are right.
fn block(m: &Matrix, a: usize, k: usize, sets: u64, members: u64) -> bool
    requires { (8 * a < group_count m.now) × (k < a) × SetRows m.now a sets × MemberRows m.now k members }
    ensures { result ≡ true → BlockRight m.now a k }
{
    let phases = usize::from(m.layout.phasecount);
    let t = conflict_tile(m, a, k);
    let back = conflict_tile(m, k, a);
    matched(t, back, 0, sets, members, phases)
}

// Whether all conflicts of a site with only one band are right.
fn single_band(m: &Matrix) -> bool
    requires { (1 ≤ group_count m.now) × (group_count m.now ≤ 8) }
    ensures { result ≡ true → AllRight m.now }
{
    let sets = set_tile(m, 0);
    own_block(m, 0, sets, mirrored(sets))
}

// Whether the conflicts between band k and itself and all later bands are right.
fn band(m: &Matrix, k: usize, sets: [u64; 4]) -> bool
    requires { (8 * k < group_count m.now) × SetTiles m.now sets }
    ensures { result ≡ true → BandRight m.now k }
{
    let bands = m.bands();
    let members = mirrored(sets[k]);
    own_block(m, k, sets[k], members) && (k + 1..bands).all(|a| block(m, a, k, sets[a], members))
}

// Whether all conflicts are right.
fn bands(m: &Matrix) -> bool
    ensures { result ≡ true → AllRight m.now }
{
    let sets = set_tiles(m);
    (0..m.bands()).all(|k| band(m, k, sets))
}

// Whether no set has a bit at or above N: the union of all sets has none.
fn below(m: &Matrix) -> bool
    ensures { result ≡ not (any_of (λ g. leb (2 ^ group_count m.now) (conflict_set m.now g)) (group_count m.now)) }
{
    let place = m.layout.conflicts + 4;
    let mut all: u32 = 0;
    for g in 0..m.groups() {
        all |= four_in(m.bytes, place + g * 4);
    }
    !reaches32(m.layout.groupcount, all)
}

// If true, no record is refused with 9 or 10. If false, nothing is known.
pub fn surely_right(m: &Matrix) -> bool
    ensures { result ≡ true → (g : ℕ) → g < group_count m.now
        → (bad_conflict m.now g ≡ false) × (conflict_in_phase m.now g ≡ false) }
{
    if !below(m) {
        return false;
    }
    if m.groups() <= 8 {
        single_band(m)
    } else {
        bands(m)
    }
}
