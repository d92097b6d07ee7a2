//! Tests of the crates from the bytes of a stream to its epochs, for what no contract states. Each
//! module is named for the crate that it tests, since a library's own name is refused.
#![tactic(auto)]

#[cfg(test)]
mod devices_tests;
#[cfg(test)]
mod examples;
#[cfg(test)]
mod gnss_obs_tests;
#[cfg(test)]
mod obs_epoch_tests;
#[cfg(test)]
mod rtcm_bits_tests;
#[cfg(test)]
mod rtcm_msg_tests;
#[cfg(test)]
mod rtcm_scan_tests;
