// The searches for the first record of kind 4 that is refused, with number 9 or with number 10. The sets that a record is compared with are
// turned: for 9 the groups that name each group, made anew for each eight groups; for 10 the groups in each phase.
ghost use Rattle.std.specs.Prelude.{ℕ, ◌<◌, ◌≤◌, ◌^◌, ◌&&◌, ◌≡◌, get_or};
ghost use Rattle.laws.specs.Bytes.{bit};
ghost use Rattle.laws.specs.Folds.{any_of};
ghost use Rattle.rules.specs.Personality.{group_count, conflict_set, bad_conflict, conflict_in_phase};
ghost use Rattle.rules.specs.Verdicts.{◌or_else◌};
ghost use Rattle.read_conflicts_turned.specs.Turned.{Turned, is_in};
ghost use Rattle.read_conflicts.specs.Refused.{Named, SetsBelow, first_bad, first_clash};

use base_bytes::{bit32, four_in};
use read_conflicts_matrix::Matrix;
use read_conflicts_turned::{members, naming};
use read_groups::sets::{group_set, reaches32};
use rules::answer::Refusal;

// The groups that group g conflicts with.
fn conflict_set(m: &Matrix, g: usize) -> u32
    requires { g < group_count m.now }
    ensures { result ≡ conflict_set m.now g }
{
    four_in(m.bytes, m.layout.conflicts + 4 + g * 4)
}

// 9: the record of group g has bit g, a bit at or above N, or a bit of a group that does not name g.
fn bad_conflict(m: &Matrix, g: usize, named: u32) -> bool
    requires { (g < group_count m.now) × Named m.now g named }
    ensures { result ≡ bad_conflict m.now g }
{
    let count = m.layout.groupcount;
    let set = conflict_set(m, g);
    bit32(g, set) || reaches32(count, set) || set & named != set
}

// The groups that are in a phase of the set.
fn sharing(members: [u32; 8], set: u32, phases: usize) -> u32
    requires { phases ≤ 7 }
    ensures { (j : ℕ) → bit j result ≡ any_of (λ p. bit p set && bit j (get_or members p 0)) phases }
{
    let mut all: u32 = 0;
    for p in 0..phases {
        if bit32(p, set) {
            all |= members[p];
        }
    }
    all
}

// 10: group g conflicts with a group in one of its phases.
fn conflict_in_phase(m: &Matrix, g: usize, members: [u32; 8]) -> bool
    requires { (g < group_count m.now) × Turned m.now (is_in m.now) members
        × (conflict_set m.now g < 2 ^ group_count m.now) }
    ensures { result ≡ conflict_in_phase m.now g }
{
    let set = u32::from(group_set(m.bytes, *m.layout, g));
    let shared = sharing(members, set, usize::from(m.layout.phasecount));
    conflict_set(m, g) & shared != 0
}

// 9: refuses at the first record with a bad conflict.
fn first_bad(m: &Matrix) -> Result<(), Refusal>
    ensures { result ≡ first_bad m.now }
{
    let mut named = [0u32; 8];
    for g in 0..m.groups() {
        if g % 8 == 0 {
            named = naming(m, g / 8);
        }
        if bad_conflict(m, g, named[g % 8]) {
            return Err(Refusal {
                number: 9,
                place: m.layout.conflicts + 4 + g * 4,
            });
        }
    }
    Ok(())
}

// 10: refuses at the first record with a conflict of groups that share a phase.
fn first_clash(m: &Matrix) -> Result<(), Refusal>
    requires { SetsBelow m.now }
    ensures { result ≡ first_clash m.now }
{
    let members = members(m);
    for g in 0..m.groups() {
        if conflict_in_phase(m, g, members) {
            return Err(Refusal {
                number: 10,
                place: m.layout.conflicts + 4 + g * 4,
            });
        }
    }
    Ok(())
}

// Refuses at the first record with number 9 or, if there is none, at the first with number 10.
pub fn searched(m: &Matrix) -> Result<(), Refusal>
    ensures { result ≡ (first_bad m.now or_else first_clash m.now) }
{
    first_bad(m)?;
    first_clash(m)
}
