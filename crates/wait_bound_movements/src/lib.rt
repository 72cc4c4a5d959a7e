// What the wait bound needs of the pedestrian movements of each phase: A, the greatest W + C1 among them, and C, the greatest C2. Both are
// 0 without movements.
#![tactic(auto)]

ghost use Rattle.std.specs.Prelude.{ℕ, ◌+◌, ◌≤◌, ◌<◌, ◌≡◌, length, get_or};
ghost use Rattle.rules.specs.WaitBound.{longest_walk, longest_clearance};
ghost use Rattle.rules.specs.Site.{no_walk_times};
ghost use Rattle.wait_bound_movements.specs.Longest.{no_longest};

use rules::site::WalkTimes;

// A (`walk`) and C (`clearance`) of a phase.
#[derive(Clone, Copy)]
pub struct Longest {
    pub walk: u16,
    pub clearance: u16,
}

// A and C of each phase, by the phase set and the times of each movement. The times are a row of the site and the sets another, so movement k is read
// by its number. Each turn of the inner loop takes the lowest phase of the movement that is left.
pub fn longest_of(crossings: &[u8], walks: &[WalkTimes; 8]) -> [Longest; 8]
    requires { (length crossings.now ≤ 8) × ((k : ℕ) → k < length crossings.now → (get_or walks.now k no_walk_times).walk + (get_or walks.now k no_walk_times).first ≤ 65535) }
    ensures walk { (p : ℕ) → p < 8 → (get_or result p no_longest).walk ≡ longest_walk crossings.now walks.now (length crossings.now) p }
    ensures clearance { (p : ℕ) → p < 8 → (get_or result p no_longest).clearance ≡ longest_clearance crossings.now walks.now (length crossings.now) p }
{
    let mut longest = [Longest {
        walk: 0,
        clearance: 0,
    }; 8];
    // A test of each of the eight phases costs a step of the largest site 314 instructions more.
    for k in 0..crossings.len() {
        let own = walks[k];
        let mut rest = u64::from(crossings[k]);
        while rest != 0 {
            let so_far = &mut longest[rest.trailing_zeros() as usize];
            so_far.walk = so_far.walk.max(own.walk + own.first);
            so_far.clearance = so_far.clearance.max(own.second);
            rest &= rest - 1;
        }
    }
    longest
}
