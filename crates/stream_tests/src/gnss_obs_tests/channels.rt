//! The channels of GLONASS satellites, and carriers computed by hand.
use gnss_obs::{Channels, Plan, Sat, Signal};
use gnss_system::{BySystem, System};
use std::alloc::Global;
use std::test::*;

/// Slots with the numbers of their channels, and the carriers in bands 1 and 2.
static CARRIERS: [(u8, u8, u32, u32); 5] = [
    // channel -7
    (1, 0, 1_598_062_500, 1_242_937_500),
    // channel -4
    (2, 3, 1_599_750_000, 1_244_250_000),
    // channel 0
    (14, 7, 1_602_000_000, 1_246_000_000),
    // channel 1
    (26, 8, 1_602_562_500, 1_246_437_500),
    // channel 6
    (27, 13, 1_605_375_000, 1_248_625_000),
];

/// The channels with one more, if it is one.
fn with(known: Channels, slot: u8, number: u8) -> Channels {
    let mut channels = known;
    if 1 <= slot && slot <= 27 && number <= 13 {
        channels.set(slot, number);
    }
    channels
}

/// Whether of all slots this one alone has a channel.
fn is_only(channels: &Channels, slot: u8, number: u8) -> bool {
    for other in 1..28u8 {
        let want = if other == slot { Some(number) } else { None };
        if channels.number(other) != want {
            return false;
        }
    }
    channels.count() == 1
}

fn carrier(channels: &Channels, system: System, id: u8, code: &str) -> Option<u32> {
    let satellite = Sat::new(system, id)?;
    channels.hertz(satellite, Signal::from_code(system, code)?)
}

/// Whether a slot has these carriers in bands 1 and 2.
fn has_carriers(channels: &Channels, slot: u8, first: Option<u32>, second: Option<u32>) -> bool {
    carrier(channels, System::Glonass, slot, "1C") == first
        && carrier(channels, System::Glonass, slot, "1P") == first
        && carrier(channels, System::Glonass, slot, "2C") == second
        && carrier(channels, System::Glonass, slot, "2P") == second
}

#[test]
fn carriers_are_those_of_channels(rt: HostRuntime) {
    for (slot, number, first, second) in &CARRIERS {
        let channels = with(Channels::none(), *slot, *number);
        assert!(rt; is_only(&channels, *slot, *number));
        assert!(rt; has_carriers(&channels, *slot, Some(*first), Some(*second)));
        assert!(rt; has_carriers(&channels, 5, None, None));
    }
}

#[test]
fn a_channel_is_replaced(rt: HostRuntime) {
    let known = with(with(Channels::none(), 5, 3), 7, 0);
    assert!(rt; known.count() == 2 && known.number(7) == Some(0));
    assert!(rt; is_only(&with(with(Channels::none(), 5, 3), 5, 10), 5, 10));
    assert!(rt; Channels::none().count() == 0);
}

#[test]
fn other_systems_need_no_channel(rt: HostRuntime) {
    let known = with(Channels::none(), 5, 0);
    for channels in [Channels::none(), known] {
        assert!(rt; carrier(&channels, System::Gps, 5, "1C") == Some(1_575_420_000));
        assert!(rt; carrier(&channels, System::Beidou, 5, "2I") == Some(1_561_098_000));
    }
}

/// The number of known channels of a plan with these signals of GLONASS, if two are given.
fn count_kept(alloc: Global, glonass: &str) -> Option<usize> {
    let texts = BySystem {
        glonass,
        ..BySystem::of_two("1C", "none", "none")
    };
    let Ok(plan) = Plan::parse_all(alloc, &texts) else {
        return None;
    };
    let given = with(with(Channels::none(), 5, 3), 7, 0);
    let before = plan.channels().count();
    let plan = plan.with_channels(given);
    let after = plan.channels().count();
    drop(plan);
    if before == 0 { Some(after) } else { None }
}

#[test]
fn channels_are_those_of_a_plan_of_glonass(rt: HostRuntime) {
    let alloc = rt.alloc();
    assert!(rt; count_kept(alloc, "1C,2C") == Some(2));
    assert!(rt; count_kept(alloc, "none") == Some(0));
}
