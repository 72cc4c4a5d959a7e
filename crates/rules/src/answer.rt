// The answers of reading a personality, of a section lookup and of a step call. A call that is refused answers `Err(Refusal)`.

// A refusal: a number of the paper's table of checks, and its place as a byte offset. The number is no enum: the papers number their checks,
// and every definition and theorem on a refusal takes that number.
#[derive(Clone, Copy)]
pub struct Refusal {
    pub number: u8,
    pub place: usize,
}

// The number and place of a verdict, 0 at 0 if it is acceptance.
#[derive(Clone, Copy)]
pub struct Report {
    pub number: u8,
    pub place: usize,
}
