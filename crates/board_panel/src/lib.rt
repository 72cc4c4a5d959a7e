// The calls of the board interface for the panel's line: the state is bytes, and the answer is one number (board_answers).
#![tactic(auto)]

ghost use Rattle.std.specs.Prelude.{◌<◌, ◌≡◌, length};
ghost use Rattle.panel_line.specs.Reasons.{line_of};
ghost use Rattle.board_panel.specs.PanelCall.{why_length_answer, why_answer, line_after};
ghost use Rattle.board_panel.specs.Explains.{Explains, PutIn};

use base_intervals::is_running;
use board_answers::{packed, refusal};
use panel_line::{Why, line_length, put_line};
use panel_reasons::why_of;
use read_personality::accepted;
use rules::answer::Refusal;
use state_timed::{REST, RULING, is_timed};
use state_valid::{site_under, times_valid};
use step_valid::{kept_valid, stray_input};

// What the checks of both calls leave to say: why the phase holds, or nothing in other intervals than running. The personality is checked first, then
// whether the bytes are a valid state of it (13), and the inputs (15).
fn explained(personality: &[u8], state: &[u8], inputs: u64) -> Result<Option<Why>, Refusal>
    ensures { Explains personality.now state.now inputs result }
{
    let p = accepted(personality)?;
    if !is_timed(state) || !times_valid(&p, state) {
        return Err(Refusal {
            number: 13,
            place: 0,
        });
    }
    let site = site_under(&p, state, RULING);
    let kept = state_bytes::read(state, REST);
    if !kept_valid(&site, kept) {
        return Err(Refusal {
            number: 13,
            place: 0,
        });
    }
    if stray_input(&site, inputs) {
        return Err(Refusal {
            number: 15,
            place: 0,
        });
    }
    if !is_running(kept.core.position.interval) {
        return Ok(None);
    }
    Ok(Some(why_of(&site, kept, inputs)))
}

// How many bytes the line has that says why the phase holds; 0 in other intervals than running. The inputs are those of the step that gave
// the state.
pub fn why_length(personality: &[u8], state: &[u8], inputs: u64) -> u64
    ensures { result ≡ why_length_answer personality.now state.now inputs }
{
    match explained(personality, state, inputs) {
        Err(Refusal { number, place }) => refusal(number, place),
        Ok(None) => packed(0, 0),
        Ok(Some(why)) => packed(0, line_length(why) as u32),
    }
}

// Puts the line at the start of a buffer that is long enough; else 14, and the buffer stays as it is.
fn put_in(why: Why, line: &mut [u8]) -> u64
    requires { why.phase < 7 }
    ensures { PutIn (line_of why) line.old line.new result }
{
    if line.len() < line_length(why) {
        return refusal(14, 0);
    }
    packed(0, put_line(why, line) as u32)
}

// Writes the line to the start of a buffer, and answers its length. The bytes behind it stay as they are. A buffer that is too short (14) and
// that of any other refused call keep their bytes.
pub fn why(personality: &[u8], state: &[u8], inputs: u64, line: &mut [u8]) -> u64
    ensures { (result ≡ why_answer personality.now state.now inputs (length line.old))
        × (line.new ≡ line_after personality.now state.now inputs line.old) }
{
    match explained(personality, state, inputs) {
        Err(Refusal { number, place }) => refusal(number, place),
        Ok(None) => packed(0, 0),
        Ok(Some(why)) => put_in(why, line),
    }
}
