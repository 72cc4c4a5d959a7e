// The sealed record of a state, 347 bytes, for callers in C and Rust. The layout is in specs/Sealed.antt.
#![tactic(auto)]

pub mod puts;

ghost use Rattle.std.specs.Prelude.{◌≤◌, ◌≡◌, length};
ghost use Rattle.std.proofs.lemmas.List.Edits.{sets};
ghost use Rattle.rules.specs.Laws.{greatest_length};
ghost use Rattle.state_timed.specs.TimedLayout.{timed_bytes};
ghost use Rattle.state_sealed.specs.Sealed.{sealed_bytes, body_of, sealed_of, other_version, damaged, other_personality, state_in};

use base_bytes::{four_in, two_in};
use base_crc::crc;
use puts::put_four;
use state_forms::{put_all, put_two};

// The version of the interface.
pub const VERSION: u8 = 6;

const SIZE: usize = 1;

const PERSONALITY: usize = 3;

const STATE: usize = 7;

const CHECK: usize = 343;

// How many bytes a sealed record has.
pub const SEALED_BYTES: usize = 347;

// Whether the record is of another version of the interface. One without a byte has no version.
#[tactic(auto, using(std::proofs::lemmas::Bool::Decides::nat_tests), unfolding(crate::specs::Sealed::other_version, laws::specs::Bytes::byte_at))]
pub fn other_version(sealed: &[u8]) -> bool
    ensures { result ≡ other_version sealed.now }
{
    sealed.first().is_some_and(|version| *version != VERSION)
}

// Whether the record has another length, or does not end in the check value of the bytes before.
#[tactic(auto, using(std::proofs::lemmas::Bool::Decides::nat_tests), unfolding(crate::specs::Sealed::damaged))]
pub fn damaged(sealed: &[u8]) -> bool
    ensures { result ≡ damaged sealed.now }
{
    sealed.len() != SEALED_BYTES || four_in(sealed, CHECK) != crc(&sealed[..CHECK])
}

// Whether the record is of another personality: its length or its check value is another.
#[tactic(auto, using(std::proofs::lemmas::Bool::Decides::nat_tests), unfolding(crate::specs::Sealed::other_personality))]
pub fn other_personality(personality: &[u8], sealed: &[u8]) -> bool
    requires { length sealed.now ≡ sealed_bytes }
    ensures { result ≡ other_personality personality.now sealed.now }
{
    usize::from(two_in(sealed, SIZE)) != personality.len()
        || four_in(sealed, PERSONALITY) != crc(personality)
}

// The state in the record.
#[tactic(auto, unfolding(crate::specs::Sealed::state_in))]
pub fn state_in(sealed: &[u8]) -> &[u8]
    requires { length sealed.now ≡ sealed_bytes }
    ensures { result.now ≡ state_in sealed.now }
{
    &sealed[STATE..CHECK]
}

// Writes all but the last check value.
fn write_body(personality: &[u8], state: &[u8], sealed: &mut [u8])
    requires { (length personality.now ≤ greatest_length) × (length state.now ≡ timed_bytes) × (length sealed.old ≡ sealed_bytes) }
    ensures { sealed.new ≡ sets sealed.old 0 (body_of personality.now state.now) }
{
    sealed[0] = VERSION;
    put_two(sealed, SIZE, personality.len() as u16);
    put_four(sealed, PERSONALITY, crc(personality));
    put_all(sealed, STATE, state);
}

// Writes the sealed record of a state of a personality.
pub fn write_sealed(personality: &[u8], state: &[u8], sealed: &mut [u8])
    requires { (length personality.now ≤ greatest_length) × (length state.now ≡ timed_bytes) × (length sealed.old ≡ sealed_bytes) }
    ensures { sealed.new ≡ sealed_of personality.now state.now }
{
    write_body(personality, state, sealed);
    let check = crc(&sealed[..CHECK]);
    put_four(sealed, CHECK, check);
}
