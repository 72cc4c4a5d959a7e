// Four sites in one cabinet. The row is a lent slice of four records, and k is the number of one, from 0. Each call lends the record where it
// stands to a function of `cabinet_parts`, a step the parts of it; no record is copied. A row of another length has no records.
ghost use Rattle.std.specs.Prelude.{◌≡◌};
ghost use Rattle.cabinet_records.specs.Cabinet.{placing, stepping, taking_out};

use cabinet_records::Record;

// Places a site in a free record, fresh and with its outputs red: 0, or a refusal.
pub fn willowera_cabinet_place(
    row: &mut [Record],
    k: usize,
    personality: &[u8],
    first: usize,
    outputs: &mut [u8],
) -> u64
    ensures { record { answer = result; row = row.new; outputs = outputs.new }
        ≡ placing row.old outputs.old personality.now k first }
{
    if row.len() != 4 || k >= 4 {
        return cabinet_held::placing::placed_nowhere(personality);
    }
    let count = cabinet_held::outputs_of(personality);
    let met = cabinet_parts::overlaps(row, k, first, count);
    cabinet_parts::place(&mut row[k], met, personality, first, outputs)
}

// One step of 0.1 s of the site in a record: its wait bound, or a refusal.
pub fn willowera_cabinet_step(row: &mut [Record], k: usize, inputs: u64, outputs: &mut [u8]) -> u64
    ensures { record { answer = result; row = row.new; outputs = outputs.new }
        ≡ stepping row.old outputs.old k inputs }
{
    if row.len() != 4 || k >= 4 {
        return 24;
    }
    let own = &mut row[k];
    cabinet_parts::step(
        own.held,
        own.first,
        &own.length,
        &own.personality,
        &mut own.state,
        inputs,
        outputs,
    )
}

// Takes out the site in a record; its outputs turn dark: 0, or a refusal.
pub fn willowera_cabinet_take_out(row: &mut [Record], k: usize, outputs: &mut [u8]) -> u64
    ensures { record { answer = result; row = row.new; outputs = outputs.new }
        ≡ taking_out row.old outputs.old k }
{
    if row.len() != 4 || k >= 4 {
        return 24;
    }
    cabinet_parts::take_out(&mut row[k], outputs)
}
