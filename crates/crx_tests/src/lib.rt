//! Tests of the libraries that no run of the program can replace: single calls of each layer, with enough
//! memory; the engines line by line; and runs over devices that fail, at each point in turn. The program itself
//! shows the output and messages of runs over whole files (tests/cases).
#![tactic(auto)]

#[cfg(test)]
mod codes;
#[cfg(test)]
mod columns;
#[cfg(test)]
mod commands;
#[cfg(test)]
mod devices;
#[cfg(test)]
mod differences;
#[cfg(test)]
mod expecting;
#[cfg(test)]
mod failures;
#[cfg(test)]
mod faults;
#[cfg(test)]
mod line_ends;
#[cfg(test)]
mod lines;
#[cfg(test)]
mod names;
#[cfg(test)]
mod numbers;
#[cfg(test)]
mod options;
#[cfg(test)]
mod owned;
#[cfg(test)]
mod steps;
#[cfg(test)]
mod texts;
