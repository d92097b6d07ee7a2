//! Tests of observation files and of the converter, for what no contract states. Each module is
//! named for the crate that it tests; `examples` has those of the crates' first pages.
#![tactic(auto)]

#[cfg(test)]
mod examples;
#[cfg(test)]
mod rinex_file_tests;
#[cfg(test)]
mod rtcm_convert_tests;
