// The site that an accepted personality describes. The arrays have room for the largest site; entries past the site's own count are zero.

// The edition of the limits that a personality is held to. Its first section says which: kind 1 is edition one, kind 8 is edition two.
#[derive(Clone, Copy)]
pub enum Edition {
    One,
    Two,
}

// The lowest and highest value of a time setting.
#[derive(Clone, Copy)]
pub struct Range {
    pub low: u16,
    pub high: u16,
}

// The time settings of one phase: L, M, X, G, Y, R, and E of early cut-off green, which is 0 without a section of kind 7.
#[derive(Clone, Copy)]
pub struct PhaseTimes {
    pub late: u16,
    pub minimum: u16,
    pub maximum: u16,
    pub gap: u16,
    pub yellow: u16,
    pub red: u16,
    pub early: u16,
}

// The time settings of one pedestrian movement: W, C1, C2.
#[derive(Clone, Copy)]
pub struct WalkTimes {
    pub walk: u16,
    pub first: u16,
    pub second: u16,
}

// All time settings of a site, as a value of their own. Movement k belongs to the k-th pedestrian group, counted from 0.
#[derive(Clone, Copy)]
pub struct Times {
    pub start: u16,
    pub phases: [PhaseTimes; 7],
    pub walks: [WalkTimes; 8],
}

// How many phases, signal groups, detectors and pedestrian movements a site has.
#[derive(Clone, Copy)]
pub struct Size {
    pub phases: u8,
    pub groups: u8,
    pub detectors: u8,
    pub movements: u8,
}

// A signal group: its phase set (bit 0 is A) and its mark (0 vehicle, 1 vehicle with late start, 2 pedestrian, 3 vehicle that stops
// early). The mark is no enum: `site_of` gives any bytes a site, also with a mark above 3, and the law `Sound` states the marks as numbers.
#[derive(Clone, Copy)]
pub struct Group {
    pub phases: u8,
    pub mark: u8,
}

// A detector: its phase (0 is A) and its mode. The mode is no enum, as the mark of a group is none.
#[derive(Clone, Copy)]
pub struct Detector {
    pub phase: u8,
    pub mode: u8,
}

#[derive(Clone, Copy)]
pub struct Site {
    pub size: Size,
    pub groups: [Group; 32],
    // bit j of entry i: group i conflicts with group j
    pub conflicts: [u32; 32],
    pub detectors: [Detector; 48],
    // the phase set of each movement's signal group
    pub crossings: [u8; 8],
    // the limits that the times are held to
    pub edition: Edition,
    // the personality has a section of kind 7
    pub early: bool,
    // the phases in running order
    pub order: [u8; 7],
    pub times: Times,
}
