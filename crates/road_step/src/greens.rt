// The vehicle groups that show green, as a set of bits. It is carried from step to step: while an interval lasts, the colours of vehicle groups change only at
// a site with early cut-off green.
ghost use Rattle.std.specs.Prelude.{ℕ, ◌≤◌, ◌<◌, ◌≡◌, eqb, length};
ghost use Rattle.laws.specs.Bytes.{bit};
ghost use Rattle.rules.specs.Site.{group_of};
ghost use Rattle.rules.specs.Colours.{green, vehicle_shown};
ghost use Rattle.road_step.specs.Greens.{GreenIn, GreenAfter, WithBit};

use rules::site::Group;
use rules::state::{Position, State};
use site_sound::SoundSite;
use step_colours::Colour;

// The bits with bit k, if it is to be set. `base_bytes::sets::with` is the same for a byte: one function of both widths would be a trait with its laws,
// longer than the two.
pub fn with_bit(bits: u64, k: u8, on: bool) -> u64
    requires { k < 48 }
    ensures { WithBit bits k on result }
{
    if on { bits | (1u64 << k) } else { bits }
}

// Whether a group is in the set.
pub fn is_green(greens: u64, group: u8) -> bool
    requires { group < 64 }
    ensures { result ≡ bit group greens }
{
    (greens >> group) % 2 == 1
}

// The groups that show green as vehicle groups. The bits of pedestrian groups have no meaning.
fn greens_at(groups: &[Group], closes: bool, position: Position) -> u64
    requires { length groups.now ≤ 32 }
    ensures { (g : ℕ) → g < length groups.now → bit g result ≡ eqb (vehicle_shown closes position (group_of groups.now g)) green }
{
    let mut greens = 0;
    for (g, group) in groups.iter().enumerate() {
        let shown = step_colours::vehicle_shown(closes, position, *group);
        greens = with_bit(greens, g as u8, shown == Colour::GREEN.code);
    }
    greens
}

// The vehicle groups that show green in a state.
pub fn greens_in(site: &SoundSite, state: State) -> u64
    ensures { GreenIn site.now state result }
{
    let closes = step_colours::closing_there(site.site.early, &site.site.times, state.position);
    greens_at(site.groups(), closes, state.position)
}

// Those in the state after a step, by those before it. The age of an interval is 1 in the step that begins it.
pub fn greens_after(site: &SoundSite, state: State, greens: u64) -> u64
    ensures { GreenAfter site.now state greens result }
{
    let begins = state.position.age == 1;
    let anew = begins || site.site.early;
    if anew { greens_in(site, state) } else { greens }
}
