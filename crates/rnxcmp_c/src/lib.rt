//! The filters and the check over memory of a C program: one export for each, and handles for runs that
//! continue from call to call. `include/rnxcmp.h` declares them for C; `library/rnxcmp.c` tests the
//! processor, accepts null pointers, and calls these.
#![tactic(auto)]

mod answer;
mod devices;
mod engines;
mod exports;
mod handle;
mod handle_state;
mod laws;
mod limits;
mod lines;
mod loose;
mod pending;
mod piece;
mod reader;
mod reader_box;
mod runs;
mod stop;
