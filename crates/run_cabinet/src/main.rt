// The cabinet program. From standard input it reads calls up to its end, and prints a line for each. The four records are free at first, and
// the 32 outputs red. A call is a kind byte and a record; of kind 0, placing, also the first output and a personality behind its two-byte
// length; of kind 1, a step, 8 bytes of inputs; kind 2 is taking out. A call that is cut, or of another kind, prints a refusal and ends the
// program. A call that the cabinet refuses does not. A read or a write that fails ends the program with its error.
#![tactic(auto)]

use cabinet_records::Record;
use run_input::next_bytes;
use std::io;
use std::io::Read;
use willowera::cabinet::{
    willowera_cabinet_place, willowera_cabinet_step, willowera_cabinet_take_out,
};

// The letters of red, yellow, green, flashing red and dark.
const LETTERS: &[u8; 5] = b"RYGFD";

// A colour's letter, or a question mark.
fn letter(code: u8) -> u8 {
    LETTERS.get(usize::from(code)).copied().unwrap_or(b'?')
}

// The end of a line: a letter for each output.
fn show_outputs(rt: &impl Print, outputs: &[u8]) -> io::Result<()> {
    let mut text = [b'\n'; 33];
    for (place, &code) in text[..32].iter_mut().zip(outputs) {
        *place = letter(code);
    }
    rt.write_all(b" ")?;
    rt.write_all(&text)
}

// What a call returned beside the row and the outputs: what is above the lowest byte, which is the wait of a step and 0 of the others. Or its
// refusal, the number and the place.
fn outcome(answer: u64) -> Result<u64, (u64, u64)> {
    match answer % 256 {
        0 => Ok(answer / 256),
        number => Err((number, answer / 256)),
    }
}

fn show_refusal(rt: &impl Print, (number, place): (u64, u64)) -> io::Result<()> {
    print!(rt; "refused {number} {place}")
}

// What follows a placing or a taking out.
fn show_done(rt: &impl Print, answer: u64) -> io::Result<()> {
    match outcome(answer) {
        Ok(_) => print!(rt; "done"),
        Err(refusal) => show_refusal(rt, refusal),
    }
}

// What follows a step.
fn show_wait(rt: &impl Print, answer: u64) -> io::Result<()> {
    match outcome(answer) {
        Ok(wait) => print!(rt; "wait {wait}"),
        Err(refusal) => show_refusal(rt, refusal),
    }
}

// A call that is cut or of another kind. Like the turns below it answers whether the program goes on.
fn cut(rt: &impl Print) -> io::Result<bool> {
    println!(rt; "refused 16 0")?;
    Ok(false)
}

// Placing the personality, which should have `size` bytes.
fn read_and_place<R: Read>(
    rt: &(impl Print + AllocGlobal),
    input: &mut R,
    row: &mut [Record; 4],
    k: u8,
    first: u8,
    size: u16,
    outputs: &mut [u8],
) -> io::Result<bool> {
    let personality = next_bytes(rt.alloc(), input, u64::from(size))?;
    if personality.len() < usize::from(size) {
        return cut(rt);
    }
    let answer = willowera_cabinet_place(
        row,
        usize::from(k),
        &personality,
        usize::from(first),
        outputs,
    );
    print!(rt; "place {k} ")?;
    show_done(rt, answer)?;
    show_outputs(rt, outputs)?;
    Ok(true)
}

fn place_turn<R: Read>(
    rt: &(impl Print + AllocGlobal),
    input: &mut R,
    row: &mut [Record; 4],
    k: u8,
    outputs: &mut [u8],
) -> io::Result<bool> {
    let head = next_bytes(rt.alloc(), input, 3)?;
    if head.len() < 3 {
        return cut(rt);
    }
    let first = base_bytes::byte_at(&head, 0);
    let size = base_bytes::two_at(&head, 1);
    read_and_place(rt, input, row, k, first, size, outputs)
}

fn step_turn<R: Read>(
    rt: &(impl Print + AllocGlobal),
    input: &mut R,
    row: &mut [Record; 4],
    k: u8,
    outputs: &mut [u8],
) -> io::Result<bool> {
    let bytes = next_bytes(rt.alloc(), input, 8)?;
    if bytes.len() < 8 {
        return cut(rt);
    }
    let inputs = base_bytes::eight_at(&bytes, 0);
    let answer = willowera_cabinet_step(row, usize::from(k), inputs, outputs);
    print!(rt; "step {k} ")?;
    show_wait(rt, answer)?;
    show_outputs(rt, outputs)?;
    Ok(true)
}

fn take_out_turn(
    rt: &impl Print,
    row: &mut [Record; 4],
    k: u8,
    outputs: &mut [u8],
) -> io::Result<bool> {
    let answer = willowera_cabinet_take_out(row, usize::from(k), outputs);
    print!(rt; "take {k} ")?;
    show_done(rt, answer)?;
    show_outputs(rt, outputs)?;
    Ok(true)
}

// The turn of the call that is next in the input. The kind is a byte of the input, and is looked at here alone: an enum of kinds would only be
// made and matched in this place.
fn take_turn<R: Read>(
    rt: &(impl Print + AllocGlobal),
    input: &mut R,
    row: &mut [Record; 4],
    outputs: &mut [u8],
) -> io::Result<bool> {
    let head = next_bytes(rt.alloc(), input, 2)?;
    if head.is_empty() {
        return Ok(false);
    }
    let &[kind, k] = head.as_slice() else {
        return cut(rt);
    };
    match kind {
        0 => place_turn(rt, input, row, k, outputs),
        1 => step_turn(rt, input, row, k, outputs),
        2 => take_out_turn(rt, row, k, outputs),
        _ => cut(rt),
    }
}

// Takes turns. A proved loop has to end, so it counts them up to a number that no input reaches.
fn run<R: Read>(
    rt: &(impl Print + AllocGlobal),
    input: &mut R,
    row: &mut [Record; 4],
    outputs: &mut [u8],
) -> io::Result<()> {
    for _ in 0..u64::MAX {
        if !take_turn(rt, input, row, outputs)? {
            break;
        }
    }
    Ok(())
}

fn main(rt: HostRuntime) -> io::Result<()> {
    let mut row = [cabinet_records::free_record(); 4];
    let mut outputs = [0u8; 32];
    run(&rt, &mut rt.stdin(), &mut row, &mut outputs)
}
