//! The forms of MSM that are converted, and the epochs that are written.
use super::ONE;
use super::script::report_of;
use gnss_obs::Interval;
use obs_epoch::{Choice, EpochCounts};
use rtcm_convert::{Fault, Report};
use rtcm_msg::Forms;

/// The frame of the first message of the tests as an MSM5, message 1075.
const MSM5: &[u8; 40] = &[
    0xD3, 0x00, 0x22, 0x43, 0x37, 0xD3, 0x00, 0x00, 0x0F, 0xA0, 0x00, 0x00, 0x04, 0x00, 0x00, 0x00,
    0x00, 0x00, 0x00, 0x00, 0x20, 0x00, 0x00, 0x00, 0x51, 0x80, 0x00, 0x01, 0x90, 0x00, 0x00, 0x00,
    0x00, 0x00, 0xB4, 0x00, 0x00, 0xB1, 0x9A, 0x9E,
];

/// Its report.
const TAKEN: Report = Report { bytes: 40, ..ONE };

#[test]
fn msm5_is_converted_only_if_all_forms_are(rt: HostRuntime) {
    let alloc = rt.alloc();
    let four_and_seven = report_of(alloc, MSM5, Forms::FourAndSeven, Choice::default());
    assert!(rt; four_and_seven == Err(Fault::NoEpoch));
    assert!(rt; report_of(alloc, MSM5, Forms::All, Choice::default()) == Ok(TAKEN));
}

/// The beginning of week 2,300, 1 s before the message.
const BEGIN: u64 = 2_300 * 604_800_000;

/// The grid of 2 s, which the message is not on.
fn every_2_s() -> Choice {
    Choice {
        interval: Interval::new(2_000),
        ..Choice::default()
    }
}

#[test]
fn an_epoch_that_is_not_chosen_is_counted(rt: HostRuntime) {
    let alloc = rt.alloc();
    let before = Choice {
        until: BEGIN + 1_000,
        ..Choice::default()
    };
    let out = EpochCounts {
        epochs: 1,
        window: 0,
        grid: 1,
    };
    let none = EpochCounts {
        window: 1,
        grid: 0,
        ..out
    };
    assert!(rt; report_of(alloc, MSM5, Forms::All, before) == Err(Fault::NoneChosen(out)));
    assert!(rt; report_of(alloc, MSM5, Forms::All, every_2_s()) == Err(Fault::NoneChosen(none)));
    let four_and_seven = report_of(alloc, MSM5, Forms::FourAndSeven, every_2_s());
    assert!(rt; four_and_seven == Err(Fault::NoEpoch));
}

#[test]
fn an_epoch_on_the_grid_is_written(rt: HostRuntime) {
    let on = Choice {
        from: BEGIN + 1_000,
        until: BEGIN + 1_100,
        interval: Interval::new(1_000),
        ..Choice::default()
    };
    assert!(rt; report_of(rt.alloc(), MSM5, Forms::All, on) == Ok(TAKEN));
}
