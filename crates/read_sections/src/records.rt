// Records of two bytes that are in the slice: those of kinds 3 and 5.
ghost use Rattle.std.specs.Prelude.{◌+◌, ◌≤◌, ◌≡◌, length};
ghost use Rattle.laws.specs.Bytes.{byte_at};
ghost use Rattle.rules.specs.Personality.{record_at};

use base_bytes::byte_in;

#[derive(Clone, Copy)]
pub struct Pair {
    pub first: u8,
    pub second: u8,
}

// Record i of the section with this head.
#[tactic(auto, unfolding(rules::specs::Personality::record_at, rules::specs::Personality::body_at))]
pub fn pair_at(s: &[u8], head: usize, i: usize) -> Pair
    requires { record_at head 2 i + 2 ≤ length s.now }
    ensures { (result.first ≡ byte_at s.now (record_at head 2 i))
        × (result.second ≡ byte_at s.now (record_at head 2 i + 1)) }
{
    let place = head + 4 + i * 2;
    Pair {
        first: byte_in(s, place),
        second: byte_in(s, place + 1),
    }
}
