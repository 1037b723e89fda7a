// Long runs on drawn setups, necks, fingers and forces, with bends and slides. After each stretch of 256 frames, played in blocks and single steps in turn, or
// in booked steps, a line says what it came to. The file stdout is written by another implementation from the same seeds.
#![tactic(auto)]

ghost use Rattle.std.specs.Prelude.{◌<◌};

mod checksum;
mod generator;
mod inputs;
mod play;
mod report;
mod state;

use generator::Generator;
use state::{State, points};
use voice::{Neck, Plan, Refusal, lay_neck};

impl State {
    // Starts anew after a step whose outcome was out of range.
    fn start_if_refused(&mut self) {
        if matches!(
            self.refusal,
            Some(Refusal::NewDisplacement | Refusal::NewContact)
        ) {
            self.start();
        }
    }

    // Before a stretch: starts anew in a quarter of the draws. In the last three stretches steps and bends are booked, and the first of these always starts anew.
    fn start_at_times(&mut self, stretch: u32) {
        self.booked = stretch >= 18;
        if self.generator.one_in(4) || stretch == 18 {
            self.start();
        }
    }

    // 256 frames: a block, single steps, a block, single steps; where steps are booked, single steps alone.
    fn stretch(&mut self, neck: Neck) {
        for i in 0..4u32 {
            let mut forces = [0; 128];
            self.generator.forces(self.setup, &mut forces);
            if i % 2 == 0 && !self.booked {
                self.block(neck, &forces);
            } else {
                self.singles(neck, &forces);
            }
            self.sum_up();
            self.start_if_refused();
        }
    }
}

// The stretches of a run, from a fresh start; in a quarter of the draws one is preceded by another.
fn stretches(rt: &impl Print, run: u32, neck: Neck, mut state: State) {
    state.start();
    for i in 0..21 {
        state.start_at_times(i);
        state.stretch(neck);
        report::stretch(rt, run, i, &state);
    }
}

// A run on a string of so many segments, with this seed: lays a neck over a drawn board, and plays.
fn run(rt: &impl Print, seed: u32, segments: u32)
    requires { 1 < segments }
{
    let points = points(segments);
    let mut generator = Generator::new(seed);
    let setup = generator.setup(segments);
    let depth = generator.some(524288);
    let mut board = [0; 127];
    generator.board(depth, &mut board[..points]);
    let mut places = [0; 24];
    let frets = generator.frets(segments, &mut places);
    let plan = Plan {
        board: &board[..points],
        frets: &places[..frets],
        tip: -(generator.draw(depth + 1) as i32),
        board_stiffness: generator.evenly_or_some(65535) as u16,
        fret_stiffness: generator.evenly_or_some(65535) as u16,
    };
    let mut heights = [0; 127];
    let mut stiffness = [0; 127];
    let _ = lay_neck(
        setup,
        plan,
        &mut heights[..points],
        &mut stiffness[..points],
    );
    let neck = Neck {
        heights: &heights[..points],
        stiffness: &stiffness[..points],
    };
    stretches(rt, seed, neck, State::new(generator, setup));
}

fn main(rt: HostRuntime) {
    for i in 0..48 {
        run(&rt, i + 1, 2 + i * 126 / 47);
    }
}
