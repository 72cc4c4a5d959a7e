// Sets turned round: for each of eight groups the groups that name it, or for each phase the groups that are in it. The tiles of the matrix
// are mirrored, and row r of the four mirrored tiles is one number of 32 bits.
#![tactic(auto)]

ghost use Rattle.std.specs.Prelude.{◌*◌, ◌/◌, ◌%◌, ◌<◌, ◌^◌, ◌≡◌};
ghost use Rattle.read_conflicts_turned.specs.Turned.{RowOf, Rows, Turned, names, is_in};

use read_conflicts_matrix::{Matrix, conflict_tile, set_tile};
use read_conflicts_tiles::mirrored;

// Row r of a tile.
fn tile_row(tile: u64, r: usize) -> u32
    requires { r < 8 }
    ensures { result ≡ tile / 2 ^ (8 * r) % 256 }
{
    ((tile >> (8 * r)) % 256) as u32
}

// Row r of four tiles as one number, the first tile lowest.
fn row_of(tiles: [u64; 4], r: usize) -> u32
    requires { r < 8 }
    ensures { RowOf tiles r result }
{
    let low = tile_row(tiles[0], r) + 256 * tile_row(tiles[1], r);
    let high = tile_row(tiles[2], r) + 256 * tile_row(tiles[3], r);
    low + 65536 * high
}

// All rows of four tiles, a number for each.
fn rows_of(tiles: [u64; 4]) -> [u32; 8]
    ensures { Rows tiles result }
{
    let mut rows = [0u32; 8];
    for r in 0..8 {
        rows[r] = row_of(tiles, r);
    }
    rows
}

// For each of the eight groups of band a the groups that name it. Bits at or above N are open, here and in `members`.
pub fn naming(m: &Matrix, a: usize) -> [u32; 8]
    requires { a < 4 }
    ensures { Turned m.now (names m.now a) result }
{
    let mut tiles = [0u64; 4];
    for k in 0..m.bands() {
        tiles[k] = mirrored(conflict_tile(m, k, a));
    }
    rows_of(tiles)
}

// For each phase the groups that are in it.
pub fn members(m: &Matrix) -> [u32; 8]
    ensures { Turned m.now (is_in m.now) result }
{
    let mut tiles = [0u64; 4];
    for k in 0..m.bands() {
        tiles[k] = mirrored(set_tile(m, k));
    }
    rows_of(tiles)
}
