//! The number of cells with a value, by signal.
ghost use Rattle.std.specs.Prelude.{◌≡◌, ◌<◌, [], None, length, nat_lt, replicate};
ghost use Rattle.std.specs.List.{list_any};
ghost use Rattle.gnss_system.specs.Signals.{table, most_signals};
ghost use Rattle.obs_epoch.specs.Heard.{heard};
ghost use Rattle.obs_epoch.specs.SignalCounts.{every_channel, valued};
ghost use Rattle.obs_epoch.specs.inner.SignalCounts.{counted, has_any, counted_more, up_by};
ghost use Rattle.obs_epoch.specs.inner.SignalCounts.{CountsMessage, AreSignalCounts};
ghost use Rattle.rtcm_msg.specs.inner.Viewed.{viewed_message};
ghost use Rattle.rtcm_msg.specs.declared.message.Message.TheVariants as messages;

use gnss_obs::Signal;
use gnss_system::{BySystem, MOST_SIGNALS, SYSTEMS, System};
use rtcm_msg::{MsmView, View};
use std::marker::Model;

/// The number of cells with a value, for each signal of the tables.
#[derive(Drop)]
pub struct SignalCounts(BySystem<[u64; MOST_SIGNALS]>);

impl Model for SignalCounts {
    ghost use Rattle.obs_epoch.specs.inner.SignalCounts.{SignalCountsValue};

    ghost Value = { SignalCountsValue };

    ghost view = { λ c. c.0 };
}

impl SignalCounts {
    /// Returns counts that are all 0.
    pub fn new() -> SignalCounts
        ensures { AreSignalCounts result [] }
    {
        SignalCounts(BySystem::each(
            |_| -> [u64; MOST_SIGNALS]
                ensures { result ≡ replicate most_signals 0 }
            { [0; MOST_SIGNALS] },
        ))
    }

    /// Returns the number of counted cells of the signal at this index of a system's table.
    pub fn count(&self, system: System, index: usize) -> u64
        requires { index < length (table system) }
        ensures { result ≡ counted self.now system index }
    {
        self.0.of(system)[index]
    }

    /// Returns whether a cell of any signal was counted.
    pub fn has_any(&self) -> bool
        ensures { result ≡ has_any self.now }
    {
        SYSTEMS.iter().any(|system| has_one(self.0.of(*system)))
    }

    /// Counts the cells of a message of this station; with `None`, of any station.
    pub fn count_view(&mut self, station: Option<u16>, view: &View<'_>)
        ensures { CountsMessage self.old self.new station (heard every_channel 0 (viewed_message view.now)) }
    {
        if let View::Msm(msm) = view {
            let own = msm.header().station;
            if station.unwrap_or(own) == own {
                self.count_msm(msm);
            }
        }
    }

    /// Counts the cells of an MSM, and returns whether one was counted.
    pub fn count_msm(&mut self, msm: &MsmView<'_>) -> bool
        ensures counts { CountsMessage self.old self.new None (heard every_channel 0 (messages.Msm msm.now)) }
        ensures any { result ≡ nat_lt 0 (length (valued None (heard every_channel 0 (messages.Msm msm.now)))) }
    {
        let system = msm.system();
        let mut counts = msm.value_counts(system.satellite_mask());
        let mut any = false;
        while let Some((id, count)) = counts.next() {
            if let Some(signal) = Signal::from_id(system, id) {
                self.add(signal, count as u64);
                any |= count > 0;
            }
        }
        any
    }

    // Adds a number of cells to those of a signal.
    fn add(&mut self, signal: Signal, count: u64)
        ensures { self.new ≡ counted_more signal count self.old }
    {
        let place = signal.index();
        // A match of its own: `of_mut` takes a jump for each signal, up to 0.7 % of `signals`.
        match signal.system() {
            System::Gps => add_at(&mut self.0.gps, place, count),
            System::Galileo => add_at(&mut self.0.galileo, place, count),
            system => add_at(self.0.of_mut(system), place, count),
        }
    }
}

// Adds a number of cells to those of the signal at an index.
fn add_at(counts: &mut [u64; MOST_SIGNALS], place: usize, count: u64)
    requires { place < most_signals }
    ensures { counts.new ≡ up_by count counts.old place }
{
    counts[place] = counts[place].saturating_add(count);
}

// Returns whether one of these counts isn't 0.
fn has_one(counts: &[u64]) -> bool
    ensures { result ≡ list_any (λ n. nat_lt 0 n) counts.now }
{
    counts.iter().any(|n| *n > 0)
}
