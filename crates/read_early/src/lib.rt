// Kind 7, optional: the times of early cut-off green. Number 17: a group stops early, but kind 7 is missing.
#![tactic(auto)]

ghost use Rattle.std.specs.Prelude.{◌≡◌};
ghost use Rattle.rules.specs.Verdicts.{Accepted};
ghost use Rattle.laws.specs.Folds.{any_of};
ghost use Rattle.rules.specs.Personality.{group_count, groups_section, stops_early, early_section, early_missing};

use read_layout::Sections;
use read_sections::records::pair_at;
use read_time_records::{WithLimits, timed_section};
use rules::answer::Refusal;

// The checks of kind 7, if it is present: a time of early cut-off green for each phase.
#[tactic(auto, using(crate::proofs::Seventh::early_there, crate::proofs::Seventh::early_absent))]
pub fn early_section(s: &Sections) -> Result<(), Refusal>
    ensures { result ≡ early_section s.now }
{
    if !s.layout.hasearly {
        return Ok(());
    }
    let times = WithLimits::new(s.bytes);
    let phases = usize::from(s.layout.phasecount);
    timed_section(&times, s.layout.early, 7, 10, 1, phases)
}

// 17: if kind 7 is missing, refuses at the first group that stops early. `some` says if there is one. Kind 3 is accepted before.
#[tactic(auto, using(rules::proofs::Checks::checks), unfolding(rules::specs::Personality::early_missing, rules::specs::Personality::stops_early))]
pub fn early_missing(s: &Sections, some: bool) -> Result<(), Refusal>
    requires { (groups_section s.now ≡ Accepted)
        × (some ≡ any_of (stops_early s.now) (group_count s.now)) }
    ensures { result ≡ early_missing s.now }
{
    if s.layout.hasearly || !some {
        return Ok(());
    }
    for g in 0..usize::from(s.layout.groupcount) {
        if pair_at(s.bytes, s.layout.groups, g).second == 3 {
            return Err(Refusal {
                number: 17,
                place: s.layout.groups + 4 + g * 2,
            });
        }
    }
    Ok(())
}
