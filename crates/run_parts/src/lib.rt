// What the trace program prints for each part of its input. A part may be cut short: the bytes handed over are those that were read. The text
// comes to the start of `out`.
#![tactic(auto)]

ghost use Rattle.std.specs.Prelude.{◌≡◌};
ghost use Rattle.rules.specs.Trace.{cut, refusal, length_part, personality_part};
ghost use Rattle.board_step.specs.StepCall.{state_after};
ghost use Rattle.run_parts.specs.Parts.{state_for, call_part, part_of, state_of};
ghost use Rattle.run_parts.specs.Prints.{Prints};

use rules::answer::Refusal;
use state_timed::REST;

// An hour of steps.
const STEPS: u64 = 36000;

// The length of a text, and whether the trace goes on with the next part. Neither says the other: all four pairs occur, so there is no Option.
#[derive(Clone, Copy)]
pub struct Printed {
    pub length: usize,
    pub more: bool,
}

// A refusal ends the trace.
fn refuse(number: u8, place: u64, out: &mut [u8; 64]) -> Printed
    ensures { Prints (refusal number place) out.old out.new result.length result.more }
{
    let length = run_text::put_refusal(number, place, out);
    Printed {
        length,
        more: false,
    }
}

// The input ends inside a part.
fn refuse_cut(out: &mut [u8; 64]) -> Printed
    ensures { Prints cut out.old out.new result.length result.more }
{
    refuse(16, 0, out)
}

// The two bytes of the length.
pub fn length_part(bytes: &[u8], out: &mut [u8; 64]) -> Printed
    ensures { Prints (length_part bytes.now) out.old out.new result.length result.more }
{
    if bytes.len() < 2 {
        return refuse_cut(out);
    }
    Printed {
        length: 0,
        more: true,
    }
}

// The personality, which should have `size` bytes. Once it is accepted, the state is its fresh state.
pub fn personality_part(
    size: usize,
    bytes: &[u8],
    state: &mut [u8; 336],
    out: &mut [u8; 64],
) -> Printed
    ensures { Prints (personality_part size bytes.now) out.old out.new result.length result.more
        × (state.new ≡ state_for size bytes.now state.old) }
{
    if bytes.len() < size {
        return refuse_cut(out);
    }
    let verdict = read_personality::read(bytes);
    board_fresh::fresh(bytes, state);
    if let Err(Refusal { number, place }) = verdict {
        return refuse(number, place as u64, out);
    }
    let length = run_text::put_header(out);
    Printed { length, more: true }
}

// The step call of a whole record, and the line of the step or of its refusal.
fn call_part(
    personality: &[u8],
    state: &mut [u8; 336],
    step: u64,
    inputs: u64,
    out: &mut [u8; 64],
) -> Printed
    ensures { Prints (call_part personality.now state.old step inputs) out.old out.new result.length result.more
        × (state.new ≡ state_after personality.now state.old inputs 32) }
{
    let mut colours = [0u8; 32];
    let answer = board_step::step(personality, state, inputs, &mut colours);
    let number = (answer % 256) as u8;
    if number != 0 {
        return refuse(number, answer / 256, out);
    }
    let kept = state_bytes::read(state, REST);
    let groups = usize::from(base_bytes::byte_at(personality, 5));
    let length = run_text::put_step(step, kept.core.position, &colours[..groups], out);
    Printed {
        length,
        more: step < STEPS,
    }
}

// The record of one step, which should have 8 bytes. With no bytes at all the input ends, and the trace with it.
pub fn record_part(
    personality: &[u8],
    state: &mut [u8; 336],
    step: u64,
    bytes: &[u8],
    out: &mut [u8; 64],
) -> Printed
    ensures { Prints (part_of personality.now state.old step bytes.now) out.old out.new result.length result.more
        × (state.new ≡ state_of personality.now state.old bytes.now) }
{
    if bytes.is_empty() {
        return Printed {
            length: 0,
            more: false,
        };
    }
    if bytes.len() < 8 {
        return refuse_cut(out);
    }
    let inputs = base_bytes::eight_at(bytes, 0);
    call_part(personality, state, step, inputs, out)
}
