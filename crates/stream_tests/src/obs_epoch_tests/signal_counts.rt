//! The number of counted cells of a signal.
use super::messages::{Heard, message};
use gnss_system::System;
use obs_epoch::SignalCounts;
use std::test::*;

/// Whether a message of station 7 with a GPS cell of 1C adds this number of them, and any cell, if
/// this station is wanted.
fn is_counted(wanted: Option<u16>, count: u64) -> bool {
    let mut signal_counts = SignalCounts::new();
    signal_counts.count_view(wanted, &message(Heard::Long(1_000, false, 64)).view());
    signal_counts.count(System::Gps, 0) == count && signal_counts.has_any() == (count == 1)
}

#[test]
fn cells_of_the_wanted_station_are_counted(rt: HostRuntime) {
    assert!(rt; is_counted(Some(7), 1) && is_counted(Some(8), 0) && is_counted(None, 1));
}
