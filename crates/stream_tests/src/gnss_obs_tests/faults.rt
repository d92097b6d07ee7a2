//! The texts of faults.
use gnss_obs::PlanFault;
use gnss_system::System;
use std::test::*;
use streams_for_tests::have_texts;

static TEXTS: [(PlanFault, &str); 6] = [
    (PlanFault::UnknownCode(System::Gps, 3), "UnknownCode G 3"),
    (
        PlanFault::RepeatedCode(System::Galileo, 1),
        "RepeatedCode E 1",
    ),
    (PlanFault::NothingPlanned, "NothingPlanned"),
    (PlanFault::BadWeek, "BadWeek"),
    (PlanFault::BadStation, "BadStation"),
    (PlanFault::Memory, "Memory"),
];

#[test]
fn texts_of_faults(rt: HostRuntime) {
    assert!(rt; have_texts(rt.alloc(), &TEXTS));
}
