// The string voice: what a caller may do, and the types of arguments and answers. Each operation stands in a crate of its own, with its contract.
#![tactic(auto)]

// 01, 'Setup': examines a setup.
pub use setup::check_setup;

// 02, item 5: the setup with another tension, and with the finger at another place.
pub use setup::bend::bend;
pub use setup::slide::slide;

// 01, 'Laying the neck': writes heights and stiffness from the board and the frets.
pub use neck::lay_neck;

// 01, 'One step': clears strings and contact variables, and gives turn, finger and (02, item 6) a book.
pub use start::fresh_start;

// 01, 'One step': writes the new string over the older buffer and the contact variables, and moves turn and finger; answers the frame.
pub use step::step;

// 02, item 6: a step and its booking in one, and a bend and its booking.
pub use booked_bend::bend_booked;
pub use booked_step::step_booked;

// 01, 'Playing a block, reading a place': makes steps until the forces end or one is refused, and writes their pickup frames.
pub use block::play_block;

// 01, 'One step': the newest string, as that one of the two lent buffers.
pub use reading::newest::newest;

// 01, 'Playing a block, reading a place': the newest displacement at a place and, where the string is pressed, its depth.
pub use reading::read_place;

// What is passed and answered, and why a call is turned down.
pub use model::refusal::Refusal;
pub use model::{
    Book, Finger, FingerSetup, Forces, Frame, Lent, Neck, Plan, Played, Reading, Setup, Started,
    Stepped, Wide,
};
