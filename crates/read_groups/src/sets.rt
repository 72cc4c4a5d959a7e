// The phase set of a group record, and the test for high bits in a set.
ghost use Rattle.std.specs.Prelude.{◌^◌, ◌≤◌, ◌≡◌, leb};
ghost use Rattle.rules.specs.Personality.{group_set};
ghost use Rattle.read_layout.specs.LayoutOf.{LayoutOf};

use base_bytes::byte_at;
use read_layout::Layout;

// The phase set of group g.
#[tactic(auto, unfolding(rules::specs::Personality::group_set, rules::specs::Personality::record_at, rules::specs::Personality::body_at))]
pub fn group_set(s: &[u8], layout: Layout, g: usize) -> u8
    requires { LayoutOf s.now layout × (g ≤ 255) }
    ensures { result ≡ group_set s.now g }
{
    byte_at(s, layout.groups + 4 + g * 2)
}

// Whether a set has a bit at or above k.
pub fn reaches32(k: u8, x: u32) -> bool
    ensures { result ≡ leb (2 ^ k) x }
{
    k < 32 && x >> k != 0
}
