// Answers the calls on standard input, one to a line, and prints what each answers and what the lent buffers hold after it.
// A call is an operation's name, then each argument under its label, as whole numbers, a book by its words; a line that starts with '#' is printed as it is.
#![tactic(auto)]

ghost use Rattle.std.specs.Prelude.{◌≡◌, ◌≤◌, length};

mod arguments;
mod call;
mod necks;
mod number;
mod pieces;
mod report;
mod room;
mod setups;
mod steps;
mod strings;

use call::{Call, Operation};
use pieces::Pieces;
use std::io::Read;

// Answers a call.
fn answer(rt: &impl Print, call: Call) {
    let arguments = call.arguments;
    match call.operation {
        Operation::Setup => setups::answer_setup(rt, arguments),
        Operation::Bend => setups::answer_bend(rt, arguments),
        Operation::BendBooked => setups::answer_bend_booked(rt, arguments),
        Operation::Slide => setups::answer_slide(rt, arguments),
        Operation::Neck => necks::answer_neck(rt, arguments),
        Operation::Start => steps::answer_start(rt, arguments),
        Operation::Step => steps::answer_step(rt, arguments),
        Operation::StepBooked => steps::answer_step_booked(rt, arguments),
        Operation::Block => steps::answer_block(rt, arguments),
        Operation::Newest => strings::answer_newest(rt, arguments),
        Operation::Reading => strings::answer_reading(rt, arguments),
    }
}

fn answer_or_print(rt: &impl Print, line: &[u8]) {
    if line.starts_with(b"#") {
        return printing::text(rt, line);
    }
    match Call::parse(line) {
        Some(call) => answer(rt, call),
        None => printing::text(rt, b"no such operation"),
    }
    printing::text(rt, b"\n");
}

// Answers every call of the text.
fn answer_all(rt: &impl Print, text: &[u8]) {
    let lines = Pieces {
        rest: text,
        end: b'\n',
    };
    for line in lines {
        answer_or_print(rt, line);
    }
}

// Reads until the room is full, the input ends or a read fails, and answers how many bytes were read.
fn fill(input: &mut impl Read, room: &mut [u8]) -> usize
    ensures { result ≤ length room.new }
{
    let mut filled = 0;
    while filled < room.len() {
        match input.read(&mut room[filled..]) {
            Ok(0) => break,
            Ok(count) => filled += count,
            Err(_) => break,
        }
    }
    filled
}

// Room for the text: so much of the input is read.
fn text_room() -> [u8; 1048576]
    ensures { 1048576 ≡ length result }
{
    [0; 1048576]
}

fn main(rt: HostRuntime) {
    let mut space = text_room();
    let filled = fill(&mut rt.stdin(), &mut space);
    answer_all(&rt, &space[..filled]);
}
