// Kind 3: the signal groups, each with its phase set and its mark.
ghost use Rattle.std.specs.Prelude.{◌≡◌, ◌+◌, ◌*◌, ◌^◌, ◌≤◌, min, length};
ghost use Rattle.rules.specs.Verdicts.{◌or_else◌, refuse_if, first_of};
ghost use Rattle.rules.specs.Personality.{body_at, group_count, groups_head, bad_group, group_record, phase_without_group, groups_section};
ghost use Rattle.read_groups.specs.GroupsRead.{GroupsRead};

use read_layout::Sections;
use read_sections::records::pair_at;
use read_sections::sized_section;
use rules::answer::Refusal;

// The most movements of a site.
const MOVEMENTS: usize = 8;

// 2 ^ P: a set has only phases below P if it is below this number. A byte has no bit above 7, so 512 is used for every greater number.
fn set_bound(phases: u8) -> u32
    ensures { result ≡ min (2 ^ phases) 512 }
{
    1u32 << phases.min(9)
}

// 6: a phase bit at or above P, a mark above 3, or a pedestrian group without exactly one phase. The bound is computed once for all records.
#[tactic(auto, using(crate::proofs::BadGroups::bad_set, crate::proofs::BadGroups::bad_mark, crate::proofs::BadGroups::bad_pedestrian, crate::proofs::BadGroups::good_other))]
fn bad_group(phases: u8, bound: u32, set: u8, mark: u8) -> bool
    requires { bound ≡ min (2 ^ phases) 512 }
    ensures { result ≡ bad_group phases set mark }
{
    bound <= u32::from(set) || 3 < mark || (mark == 2 && set.count_ones() != 1)
}

// What later checks use of accepted groups: the number of pedestrian movements (one for each pedestrian group), the set of the phases of
// these groups, and whether some group stops early.
#[derive(Clone, Copy)]
pub struct Groups {
    pub movements: usize,
    pub crossed: u8,
    pub early: bool,
}

// One pass over the records: each is checked for 6 and then for 7, the ninth pedestrian group. Then the union of all sets shows if a phase
// is in no group's set, which is 8.
#[tactic(auto, using(rules::proofs::Checks::checks), unfolding(rules::specs::Personality::group_record, rules::specs::Personality::group_set, rules::specs::Personality::group_mark, rules::specs::Personality::pedestrian, rules::specs::Personality::ninth_pedestrian, rules::specs::Personality::record_at, rules::specs::Personality::body_at, rules::specs::Verdicts::verdict))]
fn group_records(s: &Sections) -> Result<Groups, Refusal>
    requires { body_at (groups_head s.now) + group_count s.now * 2 ≤ length s.now }
    ensures { GroupsRead s.now (first_of (group_record s.now) (group_count s.now)
        or_else refuse_if (phase_without_group s.now) 8 (groups_head s.now)) result }
{
    let bound = set_bound(s.layout.phasecount);
    let head = s.layout.groups;
    let mut movements = 0;
    let mut crossed = 0;
    let mut early = false;
    let mut served = 0;
    for g in 0..usize::from(s.layout.groupcount) {
        let group = pair_at(s.bytes, head, g);
        let set = group.first;
        let mark = group.second;
        let place = head + 4 + g * 2;
        if bad_group(s.layout.phasecount, bound, set, mark) {
            return Err(Refusal { number: 6, place });
        }
        if mark == 2 {
            if movements == MOVEMENTS {
                return Err(Refusal { number: 7, place });
            }
            movements += 1;
            crossed |= set;
        }
        early |= mark == 3;
        served |= set;
    }
    if u32::from(served) + 1 != bound {
        return Err(Refusal {
            number: 8,
            place: head,
        });
    }
    Ok(Groups {
        movements,
        crossed,
        early,
    })
}

// The checks of kind 3.
#[tactic(auto, using(rules::proofs::Checks::checks), unfolding(rules::specs::Personality::groups_section, rules::specs::Verdicts::verdict))]
pub fn groups_section(s: &Sections) -> Result<Groups, Refusal>
    ensures { GroupsRead s.now (groups_section s.now) result }
{
    sized_section(
        s.bytes,
        s.layout.groups,
        3,
        usize::from(s.layout.groupcount) * 2,
    )?;
    group_records(s)
}
