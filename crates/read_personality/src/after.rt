// The checks after kind 6, in order: kinds 7 and 9 if they are present; 21, a phase without a caller; 17, a group that stops early without
// kind 7; 12, bytes left over.
ghost use Rattle.std.specs.Prelude.{◌≡◌};
ghost use Rattle.rules.specs.Verdicts.{Accepted};
ghost use Rattle.laws.specs.Folds.{any_of};
ghost use Rattle.rules.specs.Personality.{group_count, groups_section, detectors_section, stops_early, left_over, after_pedestrians};
ghost use Rattle.read_groups.specs.GroupsRead.{CrossedPhases};

use read_callers::each_called;
use read_early::{early_missing, early_section};
use read_layout::{Counted, past_section};
use read_order::order_section;
use rules::answer::Refusal;

// 12: bytes from `place` on, where the last section ends.
#[tactic(auto, using(rules::proofs::Checks::checks), unfolding(rules::specs::Personality::left_over))]
fn left_over(s: &[u8], place: usize) -> Result<(), Refusal>
    ensures { result ≡ left_over s.now place }
{
    if place < s.len() {
        return Err(Refusal { number: 12, place });
    }
    Ok(())
}

// All these checks. Kinds 3 and 5 are accepted before. `crossed` has the phases of the pedestrian groups, and `early` says if a group
// stops early.
#[tactic(auto, using(rules::proofs::Checks::checks), unfolding(rules::specs::Personality::after_pedestrians, rules::specs::Personality::end_of))]
pub fn after_pedestrians(c: &Counted, crossed: u8, early: bool) -> Result<(), Refusal>
    requires { (groups_section c.now ≡ Accepted) × (detectors_section c.now ≡ Accepted)
        × CrossedPhases c.now crossed (group_count c.now)
        × (early ≡ any_of (stops_early c.now) (group_count c.now)) }
    ensures { result ≡ after_pedestrians c.now }
{
    let s = &c.sections;
    early_section(s)?;
    order_section(c)?;
    if !each_called(c, crossed) {
        return Err(Refusal {
            number: 21,
            place: s.layout.detectors,
        });
    }
    early_missing(s, early)?;
    left_over(
        s.bytes,
        past_section(s.bytes, s.layout.order, s.layout.hasorder),
    )
}
