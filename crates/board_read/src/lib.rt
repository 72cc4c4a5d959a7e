// The calls of the board interface on a personality alone: accept or refuse it, its wait bound, its number of groups, and where a section is.
#![tactic(auto)]

ghost use Rattle.std.specs.Prelude.{◌+◌, ◌*◌, ◌<◌, ◌≡◌};
ghost use Rattle.rules.specs.Call.{bound_for, bound_of};
ghost use Rattle.rules.specs.Personality.{verdict_of, group_count};
ghost use Rattle.board_answers.specs.Answers.{packed_verdict, packed_outcome};
ghost use Rattle.board_read.specs.GroupsCall.{groups_answer};
ghost use Rattle.board_read.specs.SectionCall.{section_answer};

use base_bytes::two_at;
use board_answers::{answer, refusal};
use read_personality::accepted;
use rules::answer::Refusal;

#[tactic(auto, using(rules::proofs::Checks::checks), unfolding(rules::specs::Call::bound_for))]
fn tried_read(personality: &[u8]) -> Result<u32, Refusal>
    ensures { result ≡ bound_for (verdict_of personality.now) 0 }
{
    read_personality::read(personality)?;
    Ok(0)
}

// Accepts a personality (0) or refuses it.
#[tactic(auto, using(board_answers::proofs::Answers::packed_plain))]
pub fn read(personality: &[u8]) -> u64
    ensures { result ≡ packed_verdict (verdict_of personality.now) }
{
    answer(tried_read(personality))
}

#[tactic(auto, using(rules::proofs::Checks::checks), unfolding(rules::specs::Call::bound_for, rules::specs::Call::bound_of))]
fn tried_wait_bound(personality: &[u8]) -> Result<u32, Refusal>
    ensures { result ≡ bound_of personality.now }
{
    let p = accepted(personality)?;
    let site = site_whole::sound_site_of(&p);
    Ok(wait_bound::wait_bound(&site))
}

// The wait bound of a personality in steps, or its refusal.
pub fn wait_bound(personality: &[u8]) -> u64
    ensures { result ≡ packed_outcome (bound_of personality.now) }
{
    answer(tried_wait_bound(personality))
}

#[tactic(auto, using(rules::proofs::Checks::checks), unfolding(rules::specs::Call::bound_for))]
fn tried_groups(personality: &[u8]) -> Result<u32, Refusal>
    ensures { result ≡ bound_for (verdict_of personality.now) (group_count personality.now) }
{
    let own = accepted(personality)?;
    let sections = &own.sections;
    Ok(u32::from(sections.layout.groupcount))
}

// The number of signal groups of a personality, or its refusal.
pub fn groups(personality: &[u8]) -> u64
    ensures { result ≡ groups_answer personality.now }
{
    answer(tried_groups(personality))
}

// The answer for a part of the personality: 0 in the lowest byte, then the place in 32 bits and the length in 24.
fn part(start: usize, size: u16) -> u64
    requires { start < 4294967296 }
    ensures { result ≡ 256 * start + 1099511627776 * size }
{
    256 * (start as u64) + 1099511627776 * u64::from(size)
}

// Offset and length of the body of a section, or a refusal.
pub fn section(personality: &[u8], kind: u16) -> u64
    ensures { result ≡ section_answer personality.now kind }
{
    match read_lookup::find(personality, kind) {
        Ok(head) => part(head + 4, two_at(personality, head)),
        Err(missing) => refusal(missing.refusal.number, missing.refusal.place),
    }
}
