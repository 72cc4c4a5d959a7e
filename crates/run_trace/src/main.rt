// The trace program. It reads standard input part by part, a two-byte length, a personality of that length and 8 bytes for each step, hands each
// part to `run_parts`, and writes the text that comes back. The parts decide what is printed and where the trace ends. Outside the proofs are the
// order of these calls, and what a read and a write do: one that fails ends the program with its error.
#![tactic(auto)]

ghost use Rattle.std.specs.Prelude.{◌≤◌, ◌≡◌, length, take, IfOk, OnOk};
ghost use Rattle.std.specs.Io.KnownBytes.{Appends};

use run_input::next_bytes;
use run_parts::Printed;
use state_timed::TIMED_BYTES;
use std::alloc::Global;
use std::io;
use std::io::{Read, Write};

// Writes the text of a part, and answers whether the trace goes on.
fn write<W: Write>(output: &mut W, part: Printed, text: &[u8; 64]) -> io::Result<bool>
    requires { part.length ≤ length text.now }
    ensures more { IfOk result (λ more. more ≡ part.more) }
    ensures text { OnOk result (Appends (W.contents output.old) (W.contents output.new) (take part.length text.now)) }
{
    output.write_all(&text[..part.length])?;
    Ok(part.more)
}

// The step records, from the fresh state on.
fn records<R: Read, W: Write>(
    alloc: Global,
    input: &mut R,
    output: &mut W,
    personality: &[u8],
    state: &mut [u8; 336],
) -> io::Result<()> {
    let mut text = [0u8; 64];
    let mut step: u64 = 1;
    let mut more = true;
    while more {
        let bytes = next_bytes(alloc, input, 8)?;
        let part = run_parts::record_part(personality, state, step, &bytes, &mut text);
        more = write(output, part, &text)?;
        step += 1;
    }
    Ok(())
}

// The personality, which should have `size` bytes, and the records.
fn personality<R: Read, W: Write>(
    alloc: Global,
    input: &mut R,
    output: &mut W,
    size: u16,
) -> io::Result<()> {
    let mut text = [0u8; 64];
    let mut state = [0u8; TIMED_BYTES];
    let bytes = next_bytes(alloc, input, u64::from(size))?;
    let part = run_parts::personality_part(usize::from(size), &bytes, &mut state, &mut text);
    if write(output, part, &text)? {
        records(alloc, input, output, &bytes, &mut state)?;
    }
    Ok(())
}

fn main(rt: HostRuntime) -> io::Result<()> {
    let alloc = rt.alloc();
    let mut input = rt.stdin();
    let mut output = rt.stdout();
    let mut text = [0u8; 64];
    let head = next_bytes(alloc, &mut input, 2)?;
    let part = run_parts::length_part(&head, &mut text);
    if write(&mut output, part, &text)? {
        let size = base_bytes::two_at(&head, 0);
        personality(alloc, &mut input, &mut output, size)?;
    }
    Ok(())
}
