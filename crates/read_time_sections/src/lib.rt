// Kinds 1 or 8, 2 and 6: the counts and start red of the site, the times of the phases, the times of the pedestrian movements.
#![tactic(auto)]

ghost use Rattle.std.specs.Prelude.{◌≤◌, ◌≡◌};
ghost use Rattle.rules.specs.Personality.{movement_count, site_section, phases_section, pedestrians_section};

use read_layout::{Sections, edition_of, site_kind};
use read_sections::sized_section;
use read_time_records::{WithLimits, time_at, timed_section};
use rules::answer::Refusal;

// Kind 1, or 8 for edition two. 4: P is not 2 to 7, or N is not 1 to 32. 5: start red is outside its limits.
#[tactic(auto, using(rules::proofs::Checks::checks), unfolding(rules::specs::Personality::site_section))]
pub fn site_section(s: &Sections) -> Result<(), Refusal>
    ensures { result ≡ site_section s.now }
{
    sized_section(s.bytes, 0, site_kind(edition_of(s.bytes)), 4)?;
    if !matches!(s.layout.phasecount, 2..=7) {
        return Err(Refusal {
            number: 4,
            place: 4,
        });
    }
    if !matches!(s.layout.groupcount, 1..=32) {
        return Err(Refusal {
            number: 4,
            place: 5,
        });
    }
    time_at(&WithLimits::new(s.bytes), 6, 0)
}

// Kind 2: a record of L, M, X, G, Y, R for each phase.
#[tactic(auto, unfolding(rules::specs::Personality::phases_section))]
pub fn phases_section(s: &Sections) -> Result<(), Refusal>
    ensures { result ≡ phases_section s.now }
{
    let times = WithLimits::new(s.bytes);
    timed_section(&times, 8, 2, 1, 6, usize::from(s.layout.phasecount))
}

// Kind 6: a record of W, C1, C2 for each movement.
#[tactic(auto, unfolding(rules::specs::Personality::pedestrians_section))]
pub fn pedestrians_section(s: &Sections, movements: usize) -> Result<(), Refusal>
    requires { (movements ≡ movement_count s.now) × (movements ≤ 8) }
    ensures { result ≡ pedestrians_section s.now }
{
    let times = WithLimits::new(s.bytes);
    timed_section(&times, s.layout.pedestrians, 6, 7, 3, movements)
}
