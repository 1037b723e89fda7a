// The string voice for C and Rust: every operation of `voice` as an exported function, which include/string_voice.h declares. A slice is a pointer and a length.
// A file has the name of the function that it exports; the rows of numbers that it takes and answers are those of `rows`.
#![tactic(auto)]

mod sv_bend;
mod sv_bend_booked;
mod sv_check_setup;
mod sv_fresh_start;
mod sv_lay_neck;
mod sv_newest;
mod sv_play_block;
mod sv_read_place;
mod sv_slide;
mod sv_step;
mod sv_step_booked;
