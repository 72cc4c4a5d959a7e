// The calls of a cabinet on a record, lent where it stands. A call that is refused writes nothing.
#![tactic(auto)]

ghost use Rattle.std.specs.Prelude.{◌≡◌, length};
ghost use Rattle.cabinet_records.specs.Cabinet.{record_count, meets_record, overlaps};
ghost use Rattle.cabinet_parts.specs.Parts.{stepped_parts, placed_parts, taken_out_parts};

use cabinet_held::{fills, placing};
use cabinet_records::Record;
use rules::answer::Refusal;

// A step of the site that a record holds. A free record is refused. `size` is the record's length. The record comes in parts: document 01 has
// the row's functions take it apart and call the covered step.
pub fn step<'a>(
    held: u8,
    first: u8,
    size: &'a [u8; 2],
    room: &'a [u8; 477],
    state: &mut [u8; 336],
    inputs: u64,
    outputs: &mut [u8],
) -> u64
    ensures { record { answer = result; state = state.new; outputs = outputs.new }
        ≡ stepped_parts (record { held = held; first = first; length = size.now; personality = room.now; state = state.old })
        inputs outputs.old }
{
    if held == 0 {
        return board_answers::refusal(24, 0);
    }
    let count = cabinet_held::held_size(size);
    cabinet_held::held_step(&room[..count], first, state, inputs, outputs)
}

// Takes out the site that a record holds: the record is free, and its outputs are dark.
pub fn take_out(own: &mut Record, outputs: &mut [u8]) -> u64
    ensures { record { answer = result; kept = own.new; outputs = outputs.new } ≡ taken_out_parts own.old outputs.old }
{
    if own.held == 0 {
        return board_answers::refusal(24, 0);
    }
    let count = cabinet_held::held_size(&own.length);
    match cabinet_held::held_taking(&own.personality[..count], own.first, outputs) {
        Ok(()) => {
            own.held = 0;
            own.first = 0;
            own.length.fill(0);
            own.personality.fill(0);
            own.state.fill(0);
            0
        }
        Err(Refusal { number, place }) => board_answers::refusal(number, place),
    }
}

// Places a personality in a record: it begins fresh, with its outputs red. `met` says whether another record has one of them.
pub fn place(
    own: &mut Record,
    met: bool,
    personality: &[u8],
    first: usize,
    outputs: &mut [u8],
) -> u64
    ensures { record { answer = result; kept = own.new; outputs = outputs.new }
        ≡ placed_parts own.old met personality.now first outputs.old }
{
    match placing::held_placing(personality, own.held == 0, met, first, outputs) {
        Ok(p) => {
            own.held = 1;
            own.first = first as u8;
            state_forms::put_two(&mut own.length, 0, personality.len() as u16);
            fills::store(personality, &mut own.personality);
            placing::fresh_state(&p, &mut own.state);
            0
        }
        Err(unplaced) => board_answers::refusal(unplaced.refusal.number, unplaced.refusal.place),
    }
}

// Whether a record has one of the outputs. A free record has none.
pub fn meets(own: &Record, first: usize, count: u8) -> bool
    ensures { result ≡ meets_record first count own.now }
{
    let length = cabinet_held::held_size(&own.length);
    own.held != 0 && cabinet_held::meets(&own.personality[..length], own.first, first, count)
}

// Whether a record of the row other than k has one of the outputs. As `any`, the goal `returns` did not close.
pub fn overlaps(row: &[Record], k: usize, first: usize, count: u8) -> bool
    requires { length row.now ≡ record_count }
    ensures { result ≡ overlaps row.now k first count }
{
    for (j, own) in row.iter().enumerate() {
        if j != k && meets(own, first, count) {
            return true;
        }
    }
    false
}
