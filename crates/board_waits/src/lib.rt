// The call of the board interface for the waits of a personality: the answer is one number (board_answers).
#![tactic(auto)]

ghost use Rattle.std.specs.Prelude.{◌+◌, ◌*◌, ◌≤◌, ◌≡◌, length};
ghost use Rattle.std.proofs.lemmas.List.Edits.{sets};
ghost use Rattle.rules.specs.Call.{bound_for};
ghost use Rattle.rules.specs.Site.{site_of};
ghost use Rattle.board_waits.specs.WaitsCall.{wait_count, wait_bytes, waits_verdict, waits_answer, waits_after};

use board_answers::answer;
use read_personality::accepted;
use rules::answer::Refusal;
use site_sound::SoundSite;

// Two bytes for each phase, then two for each movement, from the buffer's start on.
fn put_waits(site: &SoundSite, count: u8, buffer: &mut [u8])
    requires { (count ≡ wait_count site.now) × (2 * count ≤ length buffer.old) }
    ensures { buffer.new ≡ sets buffer.old 0 (wait_bytes site.now) }
{
    for i in 0..count {
        state_forms::put_two(buffer, 2 * usize::from(i), wait_each::wait_at(site, i));
    }
}

#[tactic(auto, using(rules::proofs::Checks::checks), unfolding(rules::specs::Call::bound_for, rules::specs::Call::handed_back, crate::specs::WaitsCall::waits_verdict, crate::specs::WaitsCall::waits_after))]
fn tried(personality: &[u8], buffer: &mut [u8]) -> Result<u32, Refusal>
    ensures answer { result ≡ bound_for (waits_verdict personality.now (length buffer.old)) (2 * wait_count (site_of personality.now)) }
    ensures buffer { buffer.new ≡ waits_after personality.now buffer.old }
{
    let p = accepted(personality)?;
    let site = site_whole::sound_site_of(&p);
    let size = site.site.size;
    let count = size.phases + size.movements;
    if buffer.len() < 2 * usize::from(count) {
        return Err(Refusal {
            number: 14,
            place: 0,
        });
    }
    put_waits(&site, count, buffer);
    Ok(2 * u32::from(count))
}

// Writes the waits of a personality by its own times, and answers how many bytes. The personality is checked first, then whether the buffer is long
// enough (14). The bytes behind them and the buffer of a refused call stay as they are.
#[tactic(auto, unfolding(crate::specs::WaitsCall::waits_answer))]
pub fn waits(personality: &[u8], buffer: &mut [u8]) -> u64
    ensures { (result ≡ waits_answer personality.now (length buffer.old))
        × (buffer.new ≡ waits_after personality.now buffer.old) }
{
    answer(tried(personality, buffer))
}
