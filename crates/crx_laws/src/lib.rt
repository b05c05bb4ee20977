//! The laws of lines, of RINEX and Compact RINEX, of both filters and of the check, and worked examples of
//! the definitions. Each is the contract of a function with an empty body, except for the way back through
//! `Columns`, which reads the lines that were written.
#![tactic(auto, using(crate::proofs::Theorems::laws), unfolding(crate::proofs::OpenedDefinitions::digits, crate::proofs::OpenedDefinitions::coded_number, crate::proofs::OpenedDefinitions::size_of, crate::proofs::OpenedDefinitions::number_of, crate::proofs::OpenedDefinitions::number_text, crate::proofs::OpenedDefinitions::warning_text))]

pub mod again;
pub mod any_writer;
pub mod blocks;
pub mod canonical;
pub mod checking_examples;
pub mod checking_laws;
pub mod compact_examples;
pub mod compact_laws;
pub mod compact_reading;
pub mod fate;
pub mod filter_examples;
pub mod filter_laws;
pub mod line_laws;
pub mod lossless;
pub mod normal_form;
pub mod read_back;
pub mod reading_back;
pub mod rinex_laws;
pub mod salvage;
pub mod silence;
pub mod sizes;
pub mod stretch_examples;
pub mod stretches;
pub mod units;
pub mod way_back;
pub mod written_standard;
