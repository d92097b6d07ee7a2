//! Plans of texts and of signals.
use gnss_obs::{Plan, PlanFault, Signal};
use gnss_system::{BySystem, System};
use std::alloc::Global;
use std::test::*;

/// The numbers of planned signals of GPS and of Galileo, and the index of the GPS signal 1C.
type Planned = Result<(usize, usize, Option<usize>), PlanFault>;

fn place_of_1c(plan: &Plan) -> Option<usize> {
    match Signal::from_code(System::Gps, "1C") {
        Some(signal) => plan.place(signal),
        None => None,
    }
}

/// What a plan, or the fault in place of it, plans.
fn planned(plan: Result<Plan, PlanFault>) -> Planned {
    let plan = plan?;
    let gps = plan.signals(System::Gps);
    let galileo = plan.signals(System::Galileo);
    let place = place_of_1c(&plan);
    drop(plan);
    Ok((gps, galileo, place))
}

/// The texts for GPS and for Galileo, and what they plan.
static TEXTS: [(&str, &str, Planned); 10] = [
    ("all", "all", Ok((15, 19, Some(0)))),
    ("2W,1C", "none", Ok((2, 0, Some(1)))),
    ("2W", "5Q", Ok((1, 1, None))),
    (
        "1C,1C",
        "none",
        Err(PlanFault::RepeatedCode(System::Gps, 1)),
    ),
    ("1c", "all", Err(PlanFault::UnknownCode(System::Gps, 0))),
    ("none", "none", Err(PlanFault::NothingPlanned)),
    (
        "1C",
        "5Q,5",
        Err(PlanFault::UnknownCode(System::Galileo, 1)),
    ),
    ("", "all", Err(PlanFault::UnknownCode(System::Gps, 0))),
    (
        "all,1C",
        "none",
        Err(PlanFault::UnknownCode(System::Gps, 0)),
    ),
    ("1C,", "none", Err(PlanFault::UnknownCode(System::Gps, 1))),
];

#[test]
fn texts_are_read(rt: HostRuntime) {
    let alloc = rt.alloc();
    for (gps, galileo, want) in &TEXTS {
        assert!(rt; planned(Plan::parse(alloc, gps, galileo)) == *want);
    }
}

/// The codes of two GPS signals, the number of them passed as those of GPS, and as those of
/// Galileo, and what they plan.
static SIGNALS: [(&str, &str, usize, usize, Planned); 4] = [
    ("2W", "1C", 2, 0, Ok((2, 0, Some(1)))),
    (
        "2W",
        "1C",
        0,
        1,
        Err(PlanFault::UnknownCode(System::Galileo, 0)),
    ),
    ("2W", "1C", 0, 0, Err(PlanFault::NothingPlanned)),
    (
        "1C",
        "1C",
        2,
        0,
        Err(PlanFault::RepeatedCode(System::Gps, 1)),
    ),
];

fn signals_of(first: &str, second: &str) -> Option<[Signal; 2]> {
    let first = Signal::from_code(System::Gps, first)?;
    let second = Signal::from_code(System::Gps, second)?;
    Some([first, second])
}

fn are_made(alloc: Global) -> bool {
    for (first, second, gps, galileo, want) in &SIGNALS {
        let Some(signals) = signals_of(first, second) else {
            return false;
        };
        let gps = &signals[..(*gps).min(2)];
        let galileo = &signals[..(*galileo).min(2)];
        if planned(Plan::from_lists(alloc, &BySystem::of_two(gps, galileo, &[]))) != *want {
            return false;
        }
    }
    true
}

#[test]
fn plans_are_made_of_signals(rt: HostRuntime) {
    assert!(rt; are_made(rt.alloc()));
}
