// The lines of the trace program, put at the start of a buffer.
#![tactic(auto)]

ghost use Rattle.std.specs.Prelude.{◌+◌, ◌≤◌, map, ◌≡◌, length};
ghost use Rattle.rules.specs.TraceText.{header, phase_letter, colour_letter, line_tail, step_line, refusal_line};
ghost use Rattle.base_text.specs.Put.{Put};
ghost use Rattle.run_text.specs.First.{First};
ghost use Rattle.run_text.specs.Lines.{tail_length, tail_of, Counted};

use base_text::{put_bytes, put_decimal};
use rules::state::Position;

const PHASES: &[u8; 7] = b"ABCDEFG";

const COLOURS: &[u8; 4] = b"RYGF";

// A to G, or a question mark.
fn phase_letter(phase: u8) -> u8
    ensures { result ≡ phase_letter phase }
{
    PHASES.get(usize::from(phase)).copied().unwrap_or(b'?')
}

// R, Y, G or F.
fn colour_letter(code: u8) -> u8
    ensures { result ≡ colour_letter code }
{
    COLOURS.get(usize::from(code)).copied().unwrap_or(b'R')
}

// Puts one letter for each group.
fn put_colours(colours: &[u8], at: usize, out: &mut [u8]) -> usize
    requires { at + length colours.now ≤ length out.old }
    ensures { Put (map colour_letter colours.now) at out.old out.new result }
{
    for (i, &colour) in colours.iter().enumerate() {
        out[at + i] = colour_letter(colour);
    }
    at + colours.len()
}

// Puts the part of a line after the step number.
fn put_tail(position: Position, colours: &[u8], at: usize, out: &mut [u8]) -> usize
    requires { at + (length colours.now + 6) ≤ length out.old }
    ensures { Put (line_tail position colours.now) at out.old out.new result }
{
    let phase = phase_letter(position.phase);
    let letter = base_intervals::interval_row(position.interval).letter;
    let first = put_bytes(&[b' ', phase, b' ', letter, b' '], at, out);
    let second = put_colours(colours, first, out);
    put_bytes(b"\n", second, out)
}

// Puts the line of a step, of at most 32 groups.
pub fn put_step(step: u64, position: Position, colours: &[u8], out: &mut [u8]) -> usize
    requires { (length colours.now ≤ 32) × (64 ≤ length out.old) }
    ensures { First (step_line step position colours.now) out.old out.new result }
{
    let next = put_decimal(step, 0, out);
    put_tail(position, colours, next, out)
}

// Puts the line of a refusal.
pub fn put_refusal(number: u8, place: u64, out: &mut [u8]) -> usize
    requires { 64 ≤ length out.old }
    ensures { First (refusal_line number place) out.old out.new result }
{
    let first = put_bytes(b"refused ", 0, out);
    let second = put_decimal(u16::from(number), first, out);
    let third = put_bytes(b" ", second, out);
    let fourth = put_decimal(place, third, out);
    put_bytes(b"\n", fourth, out)
}

// Puts the header.
pub fn put_header(out: &mut [u8]) -> usize
    requires { 64 ≤ length out.old }
    ensures { First header out.old out.new result }
{
    put_bytes(b"step phase interval groups\n", 0, out)
}

// Writes the part of a line after the step number to the start of `out`, and answers its length. If `out` is too short, it stays as it is
// and the answer is 0.
pub fn tail(position: Position, colours: &[u8], out: &mut [u8]) -> usize
    ensures counted { Counted result out.new }
    ensures value { result ≡ tail_length (length colours.now) (length out.old) }
    ensures out_after { out.new ≡ tail_of position colours.now out.old }
{
    let end = colours.len() + 6;
    if out.len() < end {
        return 0;
    }
    put_tail(position, colours, 0, out)
}
