// The types of the string voice: a setup, what is lent, a pickup frame, a book, and what each operation answers.
// What they mean is in specs/, a file for each section of document 01. `bounds` has 01's ranges and sizes, `refusal` why a call is turned down; `operators` add and subtract numbers of two words.
#![tactic(auto)]

pub mod bounds;
mod operators;
pub mod refusal;

use refusal::Refusal;

// 01, 'Setup': what the finger brings to it, under 01's letters p, K and m.
#[derive(Clone, Copy)]
pub struct FingerSetup {
    pub place: u32, // p
    pub stiffness: u16, // K
    pub mass: u32, // m
}

// 01, 'Setup'.
#[derive(Clone, Copy)]
pub struct Setup {
    pub segments: u32, // N
    pub tension: u32, // L
    pub stiffness: u32, // M
    pub viscous: u32, // S, viscous loss
    pub plain: u32, // Z, plain loss
    pub finger: FingerSetup,
    pub pluck_place: u32, // e
    pub bridge_place: u32,
    pub neck_place: u32,
}

// 01, 'One step': the finger's newer height w, its older height w' and its contact variable φ.
#[repr(C)]
#[derive(Clone, Copy, Default)]
pub struct Finger {
    pub newer: i32,
    pub older: i32,
    pub contact: i32,
}

// 01, 'Laying the neck': what a neck is laid from.
#[derive(Clone, Copy)]
pub struct Plan<'a> {
    pub board: &'a [i32], // the height of each point
    pub board_stiffness: u16,
    pub frets: &'a [u32], // their places
    pub tip: i32, // the height of a fret
    pub fret_stiffness: u16,
}

// 01, 'Laying the neck': a laid neck, the height and the stiffness of each point.
#[derive(Clone, Copy)]
pub struct Neck<'a> {
    pub heights: &'a [i32],
    pub stiffness: &'a [u16],
}

// 01, 'One step': what is lent to a step: two string buffers and the contact variables, with the turn number and the finger, which a step changes too.
#[derive(Drop)]
pub struct Lent<'a> {
    pub first: &'a mut [i32],
    pub second: &'a mut [i32],
    pub contact: &'a mut [i32],
    pub turn: u32,
    pub finger: Finger,
}

// 01, 'One step': newer string u, older string v, contact variables ψ, and the finger.
#[derive(Clone, Copy)]
pub struct State<'a> {
    pub newer: &'a [i32],
    pub older: &'a [i32],
    pub contact: &'a [i32],
    pub finger: Finger,
}

// 01, 'One step': pluck force and finger force of one step.
#[derive(Clone, Copy)]
pub struct Forces {
    pub pluck: i32,
    pub finger: i32,
}

// 01, 'Playing a block': a pickup frame, the two new displacements divided by 1,048,576.
#[repr(C)]
#[derive(Clone, Copy)]
pub struct Frame {
    pub bridge: f32,
    pub neck: f32,
}

// 02, item 6: a signed number of 128 bits in two words of 64, two's complement, the high word first: the order of the words is that of the numbers.
#[repr(C)]
#[derive(Clone, Copy, Default, PartialEq, Eq, PartialOrd, Ord)]
pub struct Wide {
    pub high: i64,
    pub low: u64,
}

// 02, item 6: the energy book, kept beside the voice. Its columns are wide numbers; `count` is that of the accepted steps.
#[repr(C)]
#[derive(Clone, Copy, Default)]
pub struct Book {
    pub stored: Wide,
    pub work: Wide,
    pub loss: Wide,
    pub rounding: Wide, // rounding work
    pub count: u32,
}

// What an operation makes, where it makes more than one thing.

// A fresh start's turn, finger and book.
#[derive(Clone, Copy)]
pub struct Started {
    pub turn: u32,
    pub finger: Finger,
    pub book: Book,
}

// The turn and the finger after a step, and its frame.
#[derive(Clone, Copy)]
pub struct Stepped {
    pub turn: u32,
    pub finger: Finger,
    pub frame: Frame,
}

// The number of steps that a block made, and the refusal that stopped it, if one did.
#[derive(Clone, Copy)]
pub struct Played {
    pub count: usize,
    pub stopped: Option<Refusal>,
}

// 01, 'Reading a place': a place's newest displacement; where the string is pressed, its depth too, both divided by 1,048,576; or the number
// of the refusal. The case with the number is 01's form for a reading; the other operations that refuse answer a `Result`, and a block `Played`.
#[derive(Clone, Copy)]
pub enum Reading {
    Free(f64),
    Pressed(f64, f64),
    Refused(u32),
}
