// The turn of a phase, by the times of a site. All times are inside the limits, so every sum here is far below what four bytes hold.
#![tactic(auto)]

ghost use Rattle.std.specs.Prelude.{◌≤◌, ◌<◌, ◌≡◌};
ghost use Rattle.rules.specs.State.{highest_age};
ghost use Rattle.rules.specs.Waits.{leaving_of, green_of, walk_ending, ending as ending_of, turn_of};
ghost use Rattle.wait_turns.specs.Others.{all_but};

use rules::site::{PhaseTimes, WalkTimes};
use site_sound::SoundSite;

// V: early cut-off green, yellow and all-red.
pub fn leaving_of(times: PhaseTimes) -> u32
    ensures { result ≡ leaving_of times }
{
    u32::from(times.early) + u32::from(times.yellow) + u32::from(times.red)
}

// Late start, minimum green and the whole maximum green.
pub fn green_of(times: PhaseTimes) -> u32
    ensures { result ≡ green_of times }
{
    u32::from(times.late) + u32::from(times.minimum) + u32::from(times.maximum)
}

// A walk that began at step b and may end only after step z, then C1, then the greater of V and C2.
#[tactic(auto, unfolding(rules::specs::Waits::walk_ending))]
fn walk_ending(leaving: u32, walk: WalkTimes, z: u32, b: u32) -> u32
    requires { (leaving ≤ 6000) × (z ≤ 6000) × (b ≤ 4000) × (walk.walk ≤ highest_age) × (walk.first ≤ highest_age) × (walk.second ≤ highest_age) }
    ensures { result ≡ walk_ending leaving walk z b }
{
    (b + u32::from(walk.walk)).max(z + 1)
        + u32::from(walk.first)
        + leaving.max(u32::from(walk.second))
}

// The step at which the next phase starts, if nothing but a walk holds phase p after step z. The walks are those of every movement but one, if one is left
// out; they began at step b.
pub fn ending(site: &SoundSite, p: u8, without: Option<u8>, z: u32, b: u32) -> u32
    requires { (p < site.now.size.phases) × (z ≤ 6000) × (b ≤ 4000) }
    ensures { result ≡ ending_of site.now p (all_but without) z b }
{
    let leaving = leaving_of(site.site.times.phases[usize::from(p)]);
    let mut most = z + leaving;
    for k in 0..site.site.size.movements {
        let i = usize::from(k);
        if base_bytes::bit8(p, site.site.crossings[i]) && Some(k) != without {
            most = most.max(walk_ending(leaving, site.site.times.walks[i], z, b));
        }
    }
    most
}

// The turn of phase p: from its start to the next phase's start, another phase being demanded.
pub fn turn_of(site: &SoundSite, p: u8) -> u32
    requires { p < site.now.size.phases }
    ensures { result ≡ turn_of site.now p }
{
    ending(
        site,
        p,
        None,
        green_of(site.site.times.phases[usize::from(p)]),
        0,
    )
}
