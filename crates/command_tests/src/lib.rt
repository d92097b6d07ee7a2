//! Tests of the commands, for what no contract states: the program by its words, over readers and
//! writers that cut and fail.
//!
//! A test is a setting and a list of cases; `scenario` runs them.
#![tactic(auto)]

#[cfg(test)]
mod broken;
#[cfg(test)]
mod channels;
#[cfg(test)]
mod check;
#[cfg(test)]
mod chosen;
#[cfg(test)]
mod convert;
#[cfg(test)]
mod examples;
#[cfg(test)]
mod faults;
#[cfg(test)]
mod frames;
#[cfg(test)]
mod leap_seconds;
#[cfg(test)]
mod messages;
#[cfg(test)]
mod near;
#[cfg(test)]
mod quality;
#[cfg(test)]
mod scenario;
#[cfg(test)]
mod signals;
#[cfg(test)]
mod texts;
#[cfg(test)]
mod words;
