//! The names by which a user works with lines, RINEX, compact text and whole files, each from the crate that
//! exports it. Each function makes one call of that crate, with the call's signature and all of its conditions.
//! So a missing name, another signature and a further condition are errors here.

mod compact;
mod filter;
mod rinex;
mod text;
