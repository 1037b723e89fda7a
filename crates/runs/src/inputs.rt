// What is drawn for a run: its setup, the board and the frets of its neck, the finger's heights at a start, the forces of its frames, and the
// tensions and places that it changes to.
ghost use Rattle.std.specs.Prelude.{◌≡◌, ◌<◌, ◌≤◌, length};

use crate::generator::{Generator, multiple};
use voice::{FingerSetup, Setup};

// How large forces are at most, and what they are multiples of.
#[derive(Clone, Copy)]
struct Limits {
    limit: u32,
    unit: u32,
}

impl Generator {
    // A place on the string.
    fn place(&mut self, segments: u32) -> u32
        requires { 1 < segments }
    {
        1 + self.draw(segments - 1)
    }

    // A coefficient up to a limit, as a multiple of the unit.
    fn coefficient(&mut self, limit: u32, unit: u32) -> u32
        requires { limit < 4294967295 }
        ensures { result ≤ limit }
    {
        multiple(self.evenly_or_some(limit), unit)
    }

    // A setup that is accepted, with so many segments. In a quarter of the draws its coefficients are multiples of 512: then many moves are ties.
    pub fn setup(&mut self, segments: u32) -> Setup
        requires { 1 < segments }
    {
        let unit = if self.one_in(4) { 512 } else { 1 };
        let tension = 4096 - multiple(self.draw(4096), unit);
        let stiffness = self.coefficient((4096 - tension) / 4, unit);
        let viscous = self.coefficient((4096 - tension - 4 * stiffness) / 2, unit);
        Setup {
            segments,
            tension,
            stiffness,
            viscous,
            plain: self.coefficient(4096, unit),
            finger: FingerSetup {
                stiffness: self.evenly_or_some(65535) as u16,
                mass: 1 + self.evenly_or_some(1048575),
                place: self.place(segments),
            },
            pluck_place: self.place(segments),
            bridge_place: self.place(segments),
            neck_place: self.place(segments),
        }
    }

    // Heights from −depth − roughness to −depth.
    pub fn board(&mut self, depth: u32, heights: &mut [i32])
        requires { depth ≤ 524288 }
    {
        let roughness = self.some(524288);
        for height in heights {
            *height = -((depth + self.draw(roughness + 1)) as i32);
        }
    }

    // Increasing places below `segments`, about one in as many as are drawn, as far as there is room for; answers how many.
    pub fn frets(&mut self, segments: u32, places: &mut [u32]) -> usize
        ensures { result ≤ length places.new }
    {
        let spacing = self.draw(32);
        let mut count = 0;
        for place in 1..segments {
            if self.one_in(spacing + 1) && count < places.len() {
                places[count] = place;
                count += 1;
            }
        }
        count
    }

    // The finger's height before: the same, or in a quarter of the draws above, or in a quarter anywhere.
    pub fn older_height(&mut self, height: u32) -> i32
        requires { height ≤ 786432 }
    {
        match self.draw(4) {
            0 => (height + self.draw(262145)) as i32,
            1 => self.around(1048576, 1),
            _ => height as i32,
        }
    }

    // Any forces up to a drawn one, or up to eight halves of what divides them: an odd number of halves may make a tie.
    fn limits(&mut self, halves: bool, half: u32) -> Limits
        ensures { result.limit ≤ 1073741824 }
    {
        if halves {
            Limits {
                limit: half.min(134217728) * 8,
                unit: half,
            }
        } else {
            Limits {
                limit: self.some(1073741824),
                unit: 1,
            }
        }
    }

    // Forces within limits at every other entry, `given` of them.
    fn every_other(&mut self, limits: Limits, given: u32, start: usize, out: &mut [i32])
        requires { (limits.limit < 2147483648) × (start < 2) × (length out.old ≡ 128) × (given ≤ 64) }
    {
        for i in 0..given {
            let number = self.around(limits.limit, limits.unit);
            out[2 * i as usize + start] = number;
        }
    }

    // The forces of 64 frames, instead of none: some plucks and some finger forces, in half of the draws in halves of what divides them; in a quarter of
    // the draws one of them out of range.
    pub fn forces(&mut self, setup: Setup, out: &mut [i32])
        requires { length out.old ≡ 128 }
    {
        let halves = self.one_in(2);
        let pluck = self.limits(halves, 2048 + setup.plain / 2);
        let finger = self.limits(halves, setup.finger.mass / 2);
        let plucked = self.some(64);
        let pressed = self.some(64);
        self.every_other(pluck, plucked, 0, out);
        self.every_other(finger, pressed, 1, out);
        if self.one_in(4) {
            let at = self.draw(128) as usize;
            let force = self.beyond();
            out[at] = force;
        }
    }

    // 0, or a tension above the greatest: one that is refused.
    fn refused_tension(&mut self, greatest: u32) -> u32
        requires { greatest ≤ 4096 }
    {
        let zero = self.one_in(2);
        let above = self.draw(4097 - greatest);
        if zero { 0 } else { greatest + 1 + above }
    }

    // A tension to bend to, in an eighth of the draws one that is refused. Where the old one is a multiple of 512 it is one too: then there are still ties.
    pub fn tension(&mut self, setup: Setup) -> u32 {
        let greatest = greatest_tension(setup);
        let unit = if setup.tension % 512 == 0 { 512 } else { 1 };
        if self.one_in(8) {
            return self.refused_tension(greatest);
        }
        greatest - multiple(self.draw(greatest), unit)
    }

    // A place to slide to, in an eighth of the draws an end of the string, which is refused.
    pub fn place_or_end(&mut self, segments: u32) -> u32 {
        if !self.one_in(8) && segments > 1 {
            return self.place(segments);
        }
        if self.one_in(2) { 0 } else { segments }
    }
}

// The greatest tension that stiffness and viscous loss leave room for; 1 where they leave none.
fn greatest_tension(setup: Setup) -> u32
    ensures { (0 < result) × (result ≤ 4096) }
{
    let taken = 4 * u64::from(setup.stiffness) + 2 * u64::from(setup.viscous);
    if taken >= 4096 {
        return 1;
    }
    4096 - taken as u32
}
