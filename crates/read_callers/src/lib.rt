// Number 21: a phase that nobody can call.
#![tactic(auto)]

ghost use Rattle.std.specs.Prelude.{not, ◌≡◌};
ghost use Rattle.rules.specs.Verdicts.{Accepted};
ghost use Rattle.rules.specs.Personality.{group_count, detectors_section, phase_without_caller};
ghost use Rattle.read_groups.specs.GroupsRead.{CrossedPhases};

use read_layout::Counted;
use read_sections::records::pair_at;

// Whether each phase has a caller: a pedestrian group (`crossed` is the set of their phases), or a detector with a calling mode. The loop
// ends as soon as every phase has a caller. Kind 5 is accepted before, so every record is in the slice.
#[tactic(auto, unfolding(rules::specs::Personality::pedestrians_head, rules::specs::Personality::body_at))]
pub fn each_called(c: &Counted, crossed: u8) -> bool
    requires { (detectors_section c.now ≡ Accepted) × CrossedPhases c.now crossed (group_count c.now) }
    ensures { result ≡ not (phase_without_caller c.now) }
{
    let s = &c.sections;
    let head = s.layout.detectors;
    let count = (s.layout.pedestrians - head - 4) / 2;
    let all = (1u8 << s.layout.phasecount) - 1;
    let mut called = crossed;
    for d in 0..count {
        if called == all {
            return true;
        }
        let detector = pair_at(s.bytes, head, d);
        if detector.second % 4 != 0 {
            called |= 1u8 << detector.first;
        }
    }
    called == all
}
