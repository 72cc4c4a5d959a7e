// Whether a second personality differs from the first outside the bytes of the time settings.
ghost use Rattle.std.specs.Prelude.{◌<◌, not, ◌&&◌, ◌≡◌, eqb, length};
ghost use Rattle.laws.specs.Bytes.{byte_at};
ghost use Rattle.rules.specs.TimedCall.{between, time_byte, differs_elsewhere};

use read_layout::Personality;

#[tactic(auto, using(std::proofs::lemmas::Bool::Decides::nat_tests), unfolding(rules::specs::TimedCall::between))]
fn between(from: usize, past: usize, i: usize) -> bool
    ensures { result ≡ between from past i }
{
    (from..past).contains(&i)
}

// Whether byte i is part of a time setting: start red, the settings of kinds 2 and 6, and of kind 7 if it is present.
fn time_byte(p: &Personality, i: usize) -> bool
    ensures { result ≡ time_byte p.now i }
{
    let sections = &p.sections;
    let layout = &sections.layout;
    between(6, 8, i)
        | between(12, layout.groups, i)
        | between(layout.pedestrians + 4, layout.early, i)
        | (layout.hasearly & between(layout.early + 4, layout.order, i))
}

// Whether byte i differs and is not part of a time setting. The bytes are compared first: most are the same.
#[tactic(auto, using(std::proofs::lemmas::Bool::Decides::nat_tests), unfolding(laws::specs::Bytes::byte_at))]
fn differs_at(p: &Personality, new: &[u8], i: usize) -> bool
    requires { (i < length p.now) × (i < length new.now) }
    ensures { result ≡ (not (time_byte p.now i) && not (eqb (byte_at new.now i) (byte_at p.now i))) }
{
    let sections = &p.sections;
    new[i] != sections.bytes[i] && !time_byte(p, i)
}

// 26: another length, or another byte that is not part of a time setting. Both may be the same bytes.
pub fn differs_elsewhere(p: &Personality, new: &[u8]) -> bool
    ensures { result ≡ differs_elsewhere p.now new.now }
{
    let sections = &p.sections;
    let length = sections.bytes.len();
    new.len() != length || (0..length).any(|i| differs_at(p, new, i))
}
