// A call of laying the neck.
use crate::call::Arguments;
use crate::report;
use crate::room::MOST;
use voice::{Plan, lay_neck};

// So many frets are read, which are more than a neck may have.
const MOST_FRETS: usize = 30;

// Setup, board, board_stiffness, frets, tip, fret_stiffness, heights, stiffness.
pub fn answer_neck(rt: &impl Print, mut arguments: Arguments) {
    let mut board_room = [0; MOST];
    let mut frets_room = [0; MOST_FRETS];
    let mut heights_room = [0; MOST];
    let mut stiffness_room = [0; MOST];
    let setup = arguments.setup();
    let plan = Plan {
        board: arguments.list().read(&mut board_room),
        board_stiffness: arguments.number(),
        frets: arguments.list().read(&mut frets_room),
        tip: arguments.number(),
        fret_stiffness: arguments.number(),
    };
    let heights_list = arguments.list();
    let heights = heights_list.read(&mut heights_room);
    let stiffness_list = arguments.list();
    let stiffness = stiffness_list.read(&mut stiffness_room);
    report::number(rt, lay_neck(setup, plan, heights, stiffness).err());
    report::list(rt, heights_list, heights);
    report::list(rt, stiffness_list, stiffness);
}
