// Kind 9, optional: the phases in running order.
#![tactic(auto)]

ghost use Rattle.std.specs.Prelude.{◌+◌, ◌≤◌, not, ◌≡◌, length};
ghost use Rattle.rules.specs.Personality.{body_at, phase_count, order_head, phase_not_once, order_section};

use read_layout::Counted;
use read_sections::sized_section;
use rules::answer::Refusal;

// Whether the order has each phase exactly once. There are as many entries as phases, so it is enough that each phase is listed. A byte
// that is no phase lists nothing.
#[tactic(auto, unfolding(rules::specs::Personality::body_at))]
fn each_once(c: &Counted) -> bool
    requires { body_at (order_head c.now) + phase_count c.now ≤ length c.now }
    ensures { result ≡ not (phase_not_once c.now) }
{
    let s = &c.sections;
    let phases = s.layout.phasecount;
    let start = s.layout.order + 4;
    let mut listed = 0;
    for &phase in &s.bytes[start..start + usize::from(phases)] {
        if phase < phases {
            listed |= 1u8 << phase;
        }
    }
    listed + 1 == 1u8 << phases
}

// The checks of kind 9, if it is present. 18: some phase is not listed exactly once.
#[tactic(auto, using(rules::proofs::Checks::checks), unfolding(rules::specs::Personality::order_section, rules::specs::Personality::body_at))]
pub fn order_section(c: &Counted) -> Result<(), Refusal>
    ensures { result ≡ order_section c.now }
{
    let s = &c.sections;
    if !s.layout.hasorder {
        return Ok(());
    }
    sized_section(s.bytes, s.layout.order, 9, usize::from(s.layout.phasecount))?;
    if !each_once(c) {
        return Err(Refusal {
            number: 18,
            place: s.layout.order,
        });
    }
    Ok(())
}
