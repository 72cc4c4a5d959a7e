// One record of the cabinet's row. Its definitions are in specs/Cabinet.antt.
#![tactic(auto)]

ghost use Rattle.std.specs.Prelude.{◌≡◌};
ghost use Rattle.cabinet_records.specs.Cabinet.{free_record, Shaped};

// Any bytes are a record, of 817 bytes without a gap, on every target: the row that a caller in C holds. It is free if `held` is 0. The
// personality has `length` bytes, a number of two bytes, the lower one first. It stands in the first of 477, the greatest length of an
// accepted one; the state has its 336 bytes. `first` is the site's first output, counted from 0.
#[repr(C)]
#[derive(Clone, Copy)]
pub struct Record {
    pub held: u8,
    pub first: u8,
    pub length: [u8; 2],
    pub personality: [u8; 477],
    pub state: [u8; 336],
}

// A free record: zeros. That the contract holds shows that the arrays have the lengths of the definitions.
#[tactic(auto, unfolding(crate::specs::Cabinet::free_record))]
pub fn free_record() -> Record
    ensures { result ≡ free_record }
{
    Record {
        held: 0,
        first: 0,
        length: [0; 2],
        personality: [0; 477],
        state: [0; 336],
    }
}

// The arrays of every record have their lengths, because its type says so. The contract states this, with nothing required; the function
// does nothing.
pub fn shaped(own: Record)
    ensures { Shaped own }
{}
