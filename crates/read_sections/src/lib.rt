// What all sections of a personality have in common: the check of the head and of the body length, and records of two bytes.
#![tactic(auto)]

ghost use Rattle.std.specs.Prelude.{◌≤◌, ◌≡◌, eqb};
ghost use Rattle.rules.specs.Personality.{body_length, section_at};

pub mod records;

use base_bytes::two_in;
use rules::answer::Refusal;

// Checks a head, and that the body is present: numbers 1, 2, 3, 1, all at the head. `right` says if the length is right.
#[tactic(auto, using(rules::proofs::Checks::checks), unfolding(rules::specs::Personality::section_at, rules::specs::Personality::kind_at, rules::specs::Personality::body_at, rules::specs::Personality::body_length))]
pub fn section_at(s: &[u8], head: usize, kind: u16, right: bool) -> Result<(), Refusal>
    requires { head ≤ 300000 }
    ensures { result ≡ section_at s.now head kind right }
{
    if s.len() < head + 4 {
        return Err(Refusal {
            number: 1,
            place: head,
        });
    }
    if two_in(s, head + 2) != kind {
        return Err(Refusal {
            number: 2,
            place: head,
        });
    }
    if !right {
        return Err(Refusal {
            number: 3,
            place: head,
        });
    }
    if s.len() < head + 4 + usize::from(two_in(s, head)) {
        return Err(Refusal {
            number: 1,
            place: head,
        });
    }
    Ok(())
}

// The same for a body that must have this number of bytes.
#[tactic(auto, using(rules::proofs::Checks::checks), unfolding(rules::specs::Personality::section_at, rules::specs::Personality::body_length))]
pub fn sized_section(s: &[u8], head: usize, kind: u16, bytes: usize) -> Result<(), Refusal>
    requires { head ≤ 300000 }
    ensures { result ≡ section_at s.now head kind (eqb (body_length s.now head) bytes) }
{
    if s.len() < head + 4 {
        return Err(Refusal {
            number: 1,
            place: head,
        });
    }
    section_at(s, head, kind, usize::from(two_in(s, head)) == bytes)
}
