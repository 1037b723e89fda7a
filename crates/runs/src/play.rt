// Calls of the voice in a run: the fresh start, a block, steps, bends and slides, each on what the state has, with the newest setup.
ghost use Rattle.std.specs.Prelude.{◌<◌};

use crate::state::State;
use voice::{
    Forces, Frame, Lent, Neck, Refusal, Setup, bend, bend_booked, fresh_start, play_block, slide,
    step, step_booked,
};

impl State {
    // Starts anew, with a drawn finger.
    pub fn start(&mut self) {
        let height = self.generator.some(786432);
        let older = self.generator.older_height(height);
        let Lent {
            first,
            second,
            contact,
            ..
        } = self.strings.lend();
        let answer = fresh_start(self.setup, first, second, contact, height as i32, older);
        match answer {
            Ok(started) => {
                self.strings.turn = started.turn;
                self.strings.finger = started.finger;
                self.book = started.book;
            }
            Err(refusal) => self.refusal = Some(refusal),
        }
    }

    // 64 frames as one block.
    pub fn block(&mut self, neck: Neck, forces: &[i32; 128]) {
        let mut lent = self.strings.lend();
        let played = play_block(self.setup, neck, &mut lent, forces, &mut self.samples);
        let turn = lent.turn;
        let finger = lent.finger;
        self.strings.turn = turn;
        self.strings.finger = finger;
        self.steps = self.steps.wrapping_add((played.count % 65536) as u32);
        self.note(played.stopped);
    }

    // A step, booked where steps are.
    fn step(&mut self, neck: Neck, forces: Forces) -> Result<Frame, Refusal> {
        let mut lent = self.strings.lend();
        let answer = if self.booked {
            step_booked(self.setup, neck, &mut lent, forces, &mut self.book)
        } else {
            step(self.setup, neck, &mut lent, forces)
        };
        let turn = lent.turn;
        let finger = lent.finger;
        self.strings.turn = turn;
        self.strings.finger = finger;
        answer
    }

    // One frame of 64 as a step.
    fn single(&mut self, neck: Neck, forces: Forces, frame: usize)
        requires { frame < 64 }
    {
        let answer = self.step(neck, forces);
        self.note(answer.err());
        if let Ok(heard) = answer {
            self.steps = self.steps.wrapping_add(1);
            self.samples[2 * frame] = heard.bridge;
            self.samples[2 * frame + 1] = heard.neck;
        }
    }

    // 64 frames as single steps, before some of them a bend or a slide; one that is refused does not end them.
    pub fn singles(&mut self, neck: Neck, forces: &[i32; 128]) {
        for frame in 0..64 {
            self.change_at_times();
            let frame_forces = Forces {
                pluck: forces[2 * frame],
                finger: forces[2 * frame + 1],
            };
            self.single(neck, frame_forces, frame);
        }
    }

    // Bends or slides in an eighth of the draws. Later calls get the new setup.
    fn change_at_times(&mut self) {
        if !self.generator.one_in(8) {
            return;
        }
        let answer = if self.generator.one_in(2) {
            self.bend()
        } else {
            self.slide()
        };
        self.note(answer.err());
        if let Ok(setup) = answer {
            self.setup = setup;
        }
    }

    // Bends to a drawn tension, booked where bends are.
    fn bend(&mut self) -> Result<Setup, Refusal> {
        let tension = self.generator.tension(self.setup);
        if !self.booked {
            return bend(self.setup, tension);
        }
        bend_booked(
            self.setup,
            tension,
            self.strings.first(),
            self.strings.second(),
            self.strings.contact(),
            self.strings.turn,
            self.strings.finger,
            &mut self.book,
        )
    }

    // Slides to a drawn place.
    fn slide(&mut self) -> Result<Setup, Refusal> {
        let place = self.generator.place_or_end(self.setup.segments);
        slide(self.setup, place)
    }
}
