// Document 01's ranges and sizes as the code has them. A range includes both ends.

// 'Setup': N.
pub const LEAST_SEGMENTS: u32 = 2;

pub const MOST_SEGMENTS: u32 = 128;

// 'Setup': each of L, M, S and Z, and L + 4M + 2S.
pub const LARGEST_COEFFICIENT: u32 = 4096;

// 'Setup': the finger's mass m.
pub const LEAST_MASS: u32 = 1;

pub const LARGEST_MASS: u32 = 1048576;

// 'Setup': the mass of a string point.
pub const POINT_MASS: i64 = 4096;

// From the least to the largest number of 32 bits.
#[derive(Clone, Copy)]
pub struct Range {
    pub least: i32,
    pub largest: i32,
}

// 'Setup': displacements and finger heights.
pub const DISPLACEMENT: Range = Range {
    least: -1048576,
    largest: 1048576,
};

// 'Setup': contact variables.
pub const CONTACT: Range = Range {
    least: -67108864,
    largest: 67108864,
};

// 'Setup': forces.
pub const FORCE: Range = Range {
    least: -1073741824,
    largest: 1073741824,
};

// 'Laying the neck': heights of the board, of the neck and of a fret's tip.
pub const HEIGHT: Range = Range {
    least: -1048576,
    largest: 0,
};

// 'One step': a fresh start's finger height.
pub const START_HEIGHT: Range = Range {
    least: 0,
    largest: 1048576,
};

// 'Laying the neck': frets.
pub const MOST_FRETS: usize = 24;

// 'Contact gradient': what stiffness·d is divided by, and the last number q.
pub const DEPTH_UNIT: u64 = 1024;

pub const LAST_NUMBER: u64 = 1023;

// The points of the longest string, and its places, with both ends.
pub const MOST_POINTS: usize = 127;

pub const MOST_PLACES: usize = 129;

// The length of a list of points: a multiple of eight.
pub const MOST_LISTED: usize = 128;

// 'Playing a block, reading a place': what a displacement or a depth is divided by.
pub const SAMPLE_UNIT: f32 = 1048576.0;

pub const READING_UNIT: f64 = 1048576.0;
