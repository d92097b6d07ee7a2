//! What the contracts can't state: that the calls succeed, and values from outside.
//!
//! A test of a gatherer is a list of steps, each a call and its expected outcome. Only one function
//! owns a gatherer and runs the steps, since owners of one take long to prove.
mod cells;
mod choices;
mod locks;
mod messages;
mod signal_counts;
mod starts;

use gnss_obs::{Cell, Epoch, GpsTime, Plan, PlanFault, StationValues, WEEK};
use gnss_system::System;
use messages::{Heard, message};
use obs_epoch::{
    CellCounts, Choice, EpochCounts, Gather, GatherSetup, Gatherer, Kind, Start, Taken,
};
use std::alloc::Global;
use std::test::*;

/// The time of the messages at 1,000 if week 2,300 is the first.
const FIRST: u64 = 2_300 * WEEK + 1_000;

/// Every signal of either system.
const ALL: (&str, &str) = ("all", "all");

/// A call of a gatherer, and its expected outcome.
#[derive(Clone, Copy)]
enum Step {
    /// A message is processed: its outcome, and whether an epoch is closed.
    Takes(Heard, Kind, bool),
    /// A message is processed: the numbers of its cells that are kept, repeated and crowded, and
    /// whether an epoch is closed.
    Keeps(Heard, (usize, usize, usize), bool),
    /// A message is processed this many times, and its one cell is repeated each time.
    Repeats(Heard, usize),
    /// Messages of one GPS cell are processed, each kept: from satellite 32 to satellite 1, and of
    /// each satellite from 5X to 1C.
    Falls,
    /// It ends: whether an epoch is closed.
    Ends(bool),
    /// It has ended.
    HasEnded,
    /// The number of planned GPS signals.
    Plans(usize),
    /// The number of GPS cells held.
    Holds(usize),
    /// The number of lock records held.
    Locks(usize),
    /// The station values, and those of the epoch that was closed.
    Values(StationValues),
    /// No epoch was closed.
    ClosedNone,
    /// The time of the epoch that was closed, in milliseconds, its satellites and its GPS cells.
    Closed(u64, usize, usize),
    /// The satellite and the code of its GPS cell at this index.
    Of(usize, u8, [u8; 2]),
    /// Its first GPS cell has a pseudorange and no Doppler shift.
    HasNoDoppler,
    /// The indicator of its first GPS cell.
    Lli(u8),
    /// The satellite and the indicator of its last Galileo cell.
    LastLli(u8, u8),
    /// The numbers of closed epochs with a value: all, those in the window, those on the grid.
    Counts(u64, u64, u64),
}

use Step::{
    Closed, ClosedNone, Counts, Ends, Falls, HasEnded, HasNoDoppler, Holds, Keeps, LastLli, Lli,
    Locks, Of, Plans, Repeats, Takes, Values,
};

/// Whether a message has this outcome.
fn takes(g: &mut Gatherer, heard: Heard, kind: Kind, closed: bool) -> bool {
    !g.ended() && g.take(&message(heard)) == Taken { kind, closed }
}

/// Whether a message of one cell is repeated this many times.
fn repeats(g: &mut Gatherer, heard: Heard, times: usize) -> bool {
    for _ in 0..times {
        if !takes(g, heard, counts(0, 1, 0), false) {
            return false;
        }
    }
    true
}

/// Whether the cells of all GPS satellites are kept if they arrive in falling order.
fn falls(g: &mut Gatherer) -> bool {
    for last in 0..32u32 {
        if !falls_at(g, 1 << (32 + last)) {
            return false;
        }
    }
    true
}

/// The same of one satellite: 5X, 2L, 2W and 1C.
fn falls_at(g: &mut Gatherer, satellite: u64) -> bool {
    for signal in [1 << 8, 1 << 16, 1 << 22, 1 << 30] {
        if !takes(g, Heard::Wide(true, satellite, signal), KEPT, false) {
            return false;
        }
    }
    true
}

/// The cell of the closed epoch of which a step is.
fn cell_of<'a>(g: &'a Gatherer, step: &Step) -> Option<&'a Cell> {
    let epoch = g.closed()?;
    match step {
        Of(place, ..) => epoch.cells(System::Gps).get(*place),
        LastLli(..) => epoch.cells(System::Galileo).last(),
        _ => epoch.cells(System::Gps).first(),
    }
}

/// Whether a step has its expected outcome.
fn goes(g: &mut Gatherer, step: &Step) -> bool {
    match step {
        Takes(heard, kind, closed) => takes(g, *heard, *kind, *closed),
        Keeps(heard, (kept, repeated, crowded), closed) => {
            takes(g, *heard, counts(*kept, *repeated, *crowded), *closed)
        }
        Repeats(heard, times) => repeats(g, *heard, *times),
        Falls => falls(g),
        Ends(closed) => g.end() == *closed,
        step => shows(g, step),
    }
}

/// Whether a gatherer shows what a step expects, which calls nothing else.
fn shows(g: &Gatherer, step: &Step) -> bool {
    match step {
        HasEnded => g.ended(),
        Plans(signals) => g.plan().signals(System::Gps) == *signals,
        Holds(cells) => g.cells(System::Gps) == *cells,
        Locks(locks) => g.locks() == *locks,
        Values(values) => match g.closed() {
            Some(e) => g.station_values().is_same(*values) && e.station_values().is_same(*values),
            None => false,
        },
        ClosedNone => g.closed().is_none(),
        Counts(epochs, window, grid) => {
            g.epoch_counts()
                == EpochCounts {
                    epochs: *epochs,
                    window: *window,
                    grid: *grid,
                }
        }
        Closed(time, satellites, cells) => match g.closed() {
            Some(e) => {
                e.time().milliseconds() == *time
                    && e.satellites() == *satellites
                    && e.cells(System::Gps).len() == *cells
            }
            None => false,
        },
        step => match cell_of(g, step) {
            Some(cell) => is_expected(cell, step),
            None => false,
        },
    }
}

/// Whether a cell is as a step expects.
fn is_expected(cell: &Cell, step: &Step) -> bool {
    match step {
        Of(_, id, code) => cell.satellite.id() == *id && cell.signal.code() == *code,
        HasNoDoppler => cell.c.is_some() && cell.d.is_none(),
        Lli(lli) => cell.lli == *lli,
        LastLli(id, lli) => cell.satellite.id() == *id && cell.lli == *lli,
        _ => false,
    }
}

fn go_through(g: &mut Gatherer, steps: &[Step]) -> bool {
    for step in steps {
        if !goes(g, step) {
            return false;
        }
    }
    true
}

/// Whether the steps of a gatherer with this plan, start and choice have their expected outcomes.
fn run(
    alloc: Global,
    plan: (&str, &str),
    start: Start,
    station: Option<u16>,
    gather: Gather,
    choice: Choice,
    steps: &[Step],
) -> Result<bool, PlanFault> {
    let plan = Plan::parse(alloc, plan.0, plan.1)?;
    let mut setup = GatherSetup::new(plan, 0);
    setup.start = start;
    setup.station = station;
    setup.gather = gather;
    setup.choice = choice;
    let mut g = Gatherer::new(alloc, setup)?;
    let goes = go_through(&mut g, steps);
    drop(g);
    Ok(goes)
}

/// Whether all steps of a gatherer of station 7 have their expected outcomes.
fn goes_as_given(
    alloc: Global,
    plan: (&str, &str),
    week: u32,
    gather: Gather,
    steps: &[Step],
) -> bool {
    let choice = Choice::default();
    let start = Start::Week(week);
    run(alloc, plan, start, Some(7), gather, choice, steps) == Ok(true)
}

/// Whether all steps of a gatherer of station 7 with this choice, with every signal planned, from
/// week 2,300 on and by the bit, have their expected outcomes.
fn goes_with(alloc: Global, choice: Choice, steps: &[Step]) -> bool {
    let start = Start::Week(2_300);
    run(alloc, ALL, start, Some(7), Gather::Bit, choice, steps) == Ok(true)
}

/// Whether all steps of a gatherer of station 7 near this time, with every signal planned and by
/// the bit, have their expected outcomes.
fn goes_near(alloc: Global, noon: u64, steps: &[Step]) -> bool {
    let choice = Choice::default();
    match GpsTime::new(noon) {
        Some(noon) => {
            let start = Start::Near(noon);
            run(alloc, ALL, start, Some(7), Gather::Bit, choice, steps) == Ok(true)
        }
        None => false,
    }
}

/// The same as `goes_as_given` with every signal planned, from week 2,300 on and by the bit.
fn goes_by_bit(alloc: Global, steps: &[Step]) -> bool {
    goes_as_given(alloc, ALL, 2_300, Gather::Bit, steps)
}

fn counts(kept: usize, repeated: usize, crowded: usize) -> Kind {
    Kind::Kept(CellCounts {
        kept,
        without_channel: 0,
        skipped: 0,
        repeated,
        crowded,
    })
}

/// One cell, and it is kept.
const KEPT: Kind = Kind::Kept(CellCounts {
    kept: 1,
    without_channel: 0,
    skipped: 0,
    repeated: 0,
    crowded: 0,
});

#[test]
fn times_pass_the_week_and_half_a_week(rt: HostRuntime) {
    static STEPS: [Step; 7] = [
        Takes(Heard::Long(604_799_000, false, 64), KEPT, true),
        Closed(2_300 * WEEK + 604_799_000, 1, 1),
        Takes(Heard::Long(0, false, 64), KEPT, true),
        Closed(2_301 * WEEK, 1, 1),
        Takes(Heard::Long(302_400_000, false, 64), KEPT, true),
        Takes(Heard::Long(1, false, 64), Kind::Late, false),
        Takes(Heard::Long(302_401_000, false, 64), KEPT, true),
    ];
    assert!(rt; goes_by_bit(rt.alloc(), &STEPS));
}

#[test]
fn a_late_message_closes_by_its_bit(rt: HostRuntime) {
    static STEPS: [Step; 4] = [
        Takes(Heard::Long(5_000, true, 64), KEPT, false),
        Takes(Heard::Long(4_000, false, 64), Kind::Late, true),
        Takes(Heard::Long(5_000, true, 64), Kind::Late, false),
        Holds(1),
    ];
    assert!(rt; goes_by_bit(rt.alloc(), &STEPS));
}

#[test]
fn a_later_time_closes_first(rt: HostRuntime) {
    static STEPS: [Step; 7] = [
        Takes(Heard::Long(1_000, true, 64), KEPT, false),
        Takes(Heard::Long(2_000, true, 64), Kind::CloseFirst, true),
        Closed(FIRST, 1, 1),
        Takes(Heard::Long(2_000, true, 64), KEPT, false),
        ClosedNone,
        Ends(true),
        HasEnded,
    ];
    assert!(rt; goes_by_bit(rt.alloc(), &STEPS));
}

#[test]
fn an_unread_message_of_the_station_closes(rt: HostRuntime) {
    static STEPS: [Step; 5] = [
        Takes(Heard::Long(1_000, true, 64), KEPT, false),
        Takes(Heard::Unread(8, false), Kind::Ignored, false),
        Takes(Heard::Galileo(1_000, true, 64), KEPT, false),
        Takes(Heard::Unread(7, false), Kind::Ignored, true),
        Takes(Heard::Galileo(1_000, true, 64), Kind::Late, false),
    ];
    assert!(rt; goes_by_bit(rt.alloc(), &STEPS));
}

#[test]
fn by_time_alone_no_bit_closes(rt: HostRuntime) {
    static STEPS: [Step; 5] = [
        Takes(Heard::Long(1_000, true, 64), KEPT, false),
        Takes(Heard::Galileo(1_000, true, 64), KEPT, false),
        Takes(Heard::Unread(7, false), Kind::Ignored, false),
        Keeps(Heard::Galileo(1_000, true, 64), (0, 1, 0), false),
        Ends(true),
    ];
    assert!(rt; goes_as_given(rt.alloc(), ALL, 2_300, Gather::Time, &STEPS));
}

#[test]
fn galileo_may_come_first(rt: HostRuntime) {
    static BY_BIT: [Step; 3] = [
        Takes(Heard::Galileo(1_000, true, 64), KEPT, false),
        Takes(Heard::Long(1_000, false, 64), KEPT, true),
        Closed(FIRST, 2, 1),
    ];
    static BY_TIME: [Step; 4] = [
        Takes(Heard::Galileo(1_000, false, 64), KEPT, false),
        Takes(Heard::Long(1_000, false, 64), KEPT, false),
        Ends(true),
        Closed(FIRST, 2, 1),
    ];
    let alloc = rt.alloc();
    let goes = goes_by_bit(alloc, &BY_BIT);
    assert!(rt; goes && goes_as_given(alloc, ALL, 2_300, Gather::Time, &BY_TIME));
}

#[test]
fn a_shorter_lock_was_lost(rt: HostRuntime) {
    static STEPS: [Step; 4] = [
        Takes(Heard::Short(1_000, false, true, 15), KEPT, true),
        Lli(0),
        Takes(Heard::Short(2_000, false, true, 14), KEPT, true),
        Lli(1),
    ];
    assert!(rt; goes_by_bit(rt.alloc(), &STEPS));
}

#[test]
fn a_lock_below_the_elapsed_time_was_lost(rt: HostRuntime) {
    static STEPS: [Step; 6] = [
        Takes(Heard::Long(1_000, false, 0), KEPT, true),
        Takes(Heard::Long(2_000, false, 0), KEPT, true),
        Lli(1),
        Takes(Heard::Long(3_000, false, 704), KEPT, true),
        Takes(Heard::Long(18_003_000, false, 704), KEPT, true),
        Lli(0),
    ];
    assert!(rt; goes_by_bit(rt.alloc(), &STEPS));
}

#[test]
fn a_lock_without_a_phase_is_passed_over(rt: HostRuntime) {
    static STEPS: [Step; 9] = [
        Locks(0),
        Takes(Heard::Short(1_000, false, true, 8), KEPT, true),
        Takes(Heard::Short(2_000, false, false, 0), KEPT, true),
        Lli(0),
        Takes(Heard::Short(3_000, true, true, 7), KEPT, false),
        Ends(true),
        Lli(1),
        Locks(1),
        Ends(false),
    ];
    assert!(rt; goes_by_bit(rt.alloc(), &STEPS));
}

/// The values of the station message.
const SENT_VALUES: StationValues = StationValues {
    x: 1,
    y: -2,
    z: 3,
    height: 15_000,
};

#[test]
fn a_message_past_the_weeks_closes_nothing(rt: HostRuntime) {
    static STEPS: [Step; 5] = [
        Takes(Heard::Long(604_799_000, true, 64), KEPT, false),
        Takes(Heard::Long(0, true, 64), Kind::PastWeeks, false),
        Takes(Heard::Station, Kind::Station, false),
        Ends(true),
        Values(SENT_VALUES),
    ];
    assert!(rt; goes_as_given(rt.alloc(), ALL, 99_999, Gather::Bit, &STEPS));
}

/// Whether a setup with 1C alone plans one signal.
fn set_up(
    alloc: Global,
    week: u32,
    station: Option<u16>,
    gather: Gather,
) -> Result<bool, PlanFault> {
    let choice = Choice::default();
    let start = Start::Week(week);
    let steps = &[Plans(1)];
    run(alloc, ("1C", "none"), start, station, gather, choice, steps)
}

fn are_refused_in_order(alloc: Global) -> bool {
    set_up(alloc, 2_300, Some(4_096), Gather::Bit) == Err(PlanFault::BadStation)
        && set_up(alloc, 100_000, Some(4_096), Gather::Bit) == Err(PlanFault::BadWeek)
        && set_up(alloc, 99_999, None, Gather::Time) == Ok(true)
}

#[test]
fn setups_are_refused_in_order(rt: HostRuntime) {
    assert!(rt; are_refused_in_order(rt.alloc()));
}
