// The state that a step takes and hands back, and its parts.

// The interval that the phase is in.
#[derive(Clone, Copy)]
pub enum Interval {
    StartRed,
    LateStart,
    MinimumGreen,
    Running,
    // the groups that stop early close, and the other groups of the phase stay green
    EarlyCutOff,
    Yellow,
    AllRed,
}

// The stage of a pedestrian movement; the clearances are C1 and C2.
#[derive(Clone, Copy)]
pub enum Stage {
    Idle,
    Walk,
    ClearanceOne,
    ClearanceTwo,
}

// The table row of an interval: its code in the bytes of a state, its letter in a trace (ASCII), and the tests of the rules.
#[derive(Clone, Copy)]
pub struct IntervalRow {
    pub code: u8,
    pub letter: u8,
    // it is start red
    pub start: bool,
    // it is minimum green
    pub minimum: bool,
    // it is running
    pub running: bool,
    // the phase has its green: minimum green or running
    pub green: bool,
    // it is early cut-off green
    pub early: bool,
    // the phase is being left
    pub leaving: bool,
    // a phase starts when it ends
    pub starts: bool,
}

// The table row of a stage: its code in the bytes of a state, and the tests of the rules.
#[derive(Clone, Copy)]
pub struct StageRow {
    pub code: u8,
    // the movement is idle
    pub idle: bool,
    // it is in walk
    pub walk: bool,
    // it is in walk or C1, so the phase cannot be left
    pub holding: bool,
    // it is in C2
    pub second: bool,
}

// The phase, its interval, the age of the interval, came-from (`previous`) and the target.
#[derive(Clone, Copy)]
pub struct Position {
    pub phase: u8,
    pub interval: Interval,
    pub age: u16,
    pub previous: Option<u8>,
    pub target: Option<u8>,
}

// The gap count and the maximum count.
#[derive(Clone, Copy)]
pub struct Counts {
    pub gap: u16,
    pub maximum: u16,
}

// The set of the phases with a locked demand (bit 0 is A), and that of the movements with a button demand.
#[derive(Clone, Copy)]
pub struct Demands {
    pub locks: u8,
    pub buttons: u8,
}

#[derive(Clone, Copy)]
pub struct Movement {
    pub stage: Stage,
    pub age: u16,
}

#[derive(Clone, Copy)]
pub struct State {
    pub position: Position,
    pub counts: Counts,
    pub demands: Demands,
    pub movements: [Movement; 8],
}

// What a step call takes and hands back: the state, and beside it the kept set, which has the phases with a locked demand or with a
// demanded movement.
#[derive(Clone, Copy)]
pub struct KeptState {
    pub core: State,
    pub kept: u8,
}
