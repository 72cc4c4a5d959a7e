// Unit one: reads a personality. The sections are checked in their order, and the first check that fails gives the answer.
#![tactic(auto)]

ghost use Rattle.std.specs.Prelude.{◌≡◌, IfOk};
ghost use Rattle.rules.specs.Verdicts.{verdict};
ghost use Rattle.rules.specs.Personality.{movement_count, verdict_of};

mod after;

use after::after_pedestrians;
use read_conflicts::conflicts_section;
use read_detectors::detectors_section;
use read_groups::records::groups_section;
use read_layout::{Counted, Personality, Sections};
use read_time_sections::{pedestrians_section, phases_section, site_section};
use rules::answer::Refusal;

// The checks after the site section's, in their order. If all pass, the answer is the number of pedestrian movements.
#[tactic(auto, using(rules::proofs::Checks::checks), unfolding(rules::specs::Personality::verdict_of))]
fn after_site(c: &Counted) -> Result<usize, Refusal>
    ensures verdict { verdict result ≡ verdict_of c.now }
    ensures movements { IfOk result (λ n. n ≡ movement_count c.now) }
{
    let s = &c.sections;
    phases_section(s)?;
    let groups = groups_section(s)?;
    conflicts_section(c)?;
    detectors_section(c)?;
    pedestrians_section(s, groups.movements)?;
    after_pedestrians(c, groups.crossed, groups.early)?;
    Ok(groups.movements)
}

// Accepts or refuses a personality. An accepted one is handed out with the places of its sections, for callers that go on to decode the site.
#[tactic(auto, using(rules::proofs::Checks::checks), unfolding(rules::specs::Personality::verdict_of))]
pub fn accepted<'a>(personality: &'a [u8]) -> Result<Personality<'a>, Refusal>
    ensures verdict { verdict result ≡ verdict_of personality.now }
    ensures bytes { IfOk result (λ p. p ≡ personality.now) }
{
    let sections = Sections::new(personality);
    site_section(&sections)?;
    let c = Counted { sections };
    let movements = after_site(&c)?;
    Ok(Personality {
        sections: c.sections,
        movements,
    })
}

// Accepts or refuses a personality.
#[tactic(auto, using(rules::proofs::Checks::checks))]
pub fn read(personality: &[u8]) -> Result<(), Refusal>
    ensures { result ≡ verdict_of personality.now }
{
    accepted(personality)?;
    Ok(())
}
