//! Gathers messages into epochs, with loss of lock indicators.
ghost use Rattle.std.specs.Prelude.{[], ◌≡◌, ◌↔◌, ◌⊎◌, ◌<◌, ◌≤◌, ◌&&◌, not, true, false, length, None, Some, is_some, IfOk};
ghost use Rattle.std.specs.Prelude.{IfErr, IfSome, IsOk, Err, if◌then◌else◌, option_map, option_to_list, List, Option};
ghost use Rattle.std.specs.Option.{ForSome};
ghost use Rattle.rtcm_msg.specs.Msm.{most_pairs, week};
ghost use Rattle.rtcm_msg.specs.Entries.{IsEntry, entries};
ghost use Rattle.rtcm_msg.specs.inner.Viewed.{viewed_message};
ghost use Rattle.rtcm_msg.specs.Forms.{lock_codes};
ghost use Rattle.rtcm_msg.specs.inner.Forms.{form_as};
ghost use Rattle.rtcm_msg.specs.declared.message.Message.TheVariants as messages;
ghost use Rattle.obs_epoch.specs.Heard.{Heard, heard_by, heard_summary};
ghost use Rattle.obs_epoch.specs.declared.setup.GatherSetup.{GatherSetup};
ghost use Rattle.gnss_obs.specs.Order.{AreSortedByPlan};
ghost use Rattle.gnss_obs.specs.Plans.{place_in};
ghost use Rattle.gnss_obs.specs.HeardCells.{heard_cell, IsObserved};
ghost use Rattle.obs_epoch.specs.Epochs.{values_after_message, values_of};
ghost use Rattle.obs_epoch.specs.inner.Held.{count_in};
ghost use Rattle.obs_epoch.specs.GathererAfter.{most_locks, recorded, time_in};
ghost use Rattle.obs_epoch.specs.inner.Step.{kind_by, closed_time, ended_where, step_by};
ghost use Rattle.gnss_obs.specs.Values.{Closed, cells_of, most_cells, planned_of};
ghost use Rattle.obs_epoch.specs.Kinds.{is_accepted, is_no_station, with_counts};
ghost use Rattle.obs_epoch.specs.Starts.{is_no_week};
ghost use Rattle.obs_epoch.specs.GathererHistory.{HasGatheredEpochs, closed_by, closed_in, plan_in};
ghost use Rattle.obs_epoch.specs.inner.Calls.{TakesMessage, EndsPendingEpoch, StaysEnded, HoldsCells, HoldsLockedKeys};
ghost use Rattle.obs_epoch.specs.inner.Calls.{CountsEpochs};
ghost use Rattle.gnss_obs.specs.declared.fault.PlanFault.{PlanFault};
ghost use Rattle.obs_epoch.specs.inner.GathererSteps.{closed_noted, loaded_where, load_entry, load_entries, unloaded};
ghost use Rattle.obs_epoch.specs.inner.GathererSteps.{begun_by, cleared_if, thinned, thinned_if};
ghost use Rattle.obs_epoch.specs.inner.Marks.{any_loss};
ghost use Rattle.gnss_system.specs.Systems.{systems};
ghost use Rattle.obs_epoch.specs.inner.GathererSteps.{load, system_as, rested, outcome_in, hold, shut_where};
ghost use Rattle.obs_epoch.specs.Cells.{cells_counted, lacks_channel, no_counts};

use crate::choice::{Choice, EpochCounts};
use crate::clock::Clock;
use crate::locks::{Locks, lli, note_systems};
use crate::marks;
use crate::marks::Marks;
use crate::observe::observe;
use crate::parts::new_parts;
use crate::setup::GatherSetup;
use crate::taken::{CellCounts, Kind, Taken};
use crate::tow::summary_of;
use gnss_obs::{Cell, Epoch, EpochCells, Plan, PlanFault, StationValues};
use gnss_system::System;
use rtcm_msg::{Entries, Entry, Form, Message, MsmView, Summary, View, form_as};
use std::alloc::Global;
use std::marker::Model;

/// Messages of a station, gathered into epochs.
#[derive(Drop)]
pub struct Gatherer {
    clock: Clock,
    // The cells of the pending epoch, whose time is that of the clock; none if no epoch is pending.
    pending: EpochCells,
    // The epoch closed last; it has no cells while another one is pending.
    closed: Epoch,
    values: StationValues,
    locks: Locks,
    // The loss of lock in epochs off the grid.
    marks: Marks,
    // Numbers of the epochs with a value that are left out.
    counts: EpochCounts,
    // Whether the epoch closed last is chosen.
    chosen: bool,
    // Whether the last call closed it.
    just_closed: bool,
    has_ended: bool,
}

impl Model for Gatherer {
    ghost use Rattle.obs_epoch.specs.inner.GathererSteps.{IsGathering};
    ghost use Rattle.obs_epoch.specs.GathererAfter.{GathererValue, epoch_in};

    ghost Value = { GathererValue };

    ghost view = { λ a. record {
      clock = a.clock;
      epoch = epoch_in a.clock a.pending a.closed;
      locks = a.locks;
      marks = a.marks;
      counts = a.counts;
      chosen = a.chosen;
      values = a.values;
      just_closed = a.just_closed;
      has_ended = a.has_ended;
    } };

    ghost invariant = { λ a. IsGathering a.clock a.pending a.closed a.values a.just_closed };
}

impl Gatherer {
    /// Returns a gatherer of the messages of one station, or of all stations as if they were one.
    /// The first time is in the week that the start gives. Only this call allocates.
    ///
    /// # Errors
    ///
    /// `BadWeek` for a week greater than 99,999, else `BadStation` for a station greater than
    /// 4,095, else `Memory` if an allocation failed.
    pub fn new(alloc: Global, setup: GatherSetup) -> Result<Gatherer, PlanFault>
        ensures history { IfOk result (λ g. HasGatheredEpochs g setup [] [] None) }
        ensures going { IfOk result (λ g. g.has_ended ≡ false) }
        ensures none { IfOk result (λ g. closed_in g ≡ None) }
        ensures accepted { IsOk result → (is_no_week setup.start ≡ false) × (is_no_station setup.station ≡ false) }
        ensures week { (result ≡ Err PlanFault.BadWeek) ↔ (is_no_week setup.start ≡ true) }
        ensures station { (result ≡ Err PlanFault.BadStation)
            ↔ ((is_no_week setup.start ≡ false) × (is_no_station setup.station ≡ true)) }
        ensures only { IfErr result
            (λ e. (e ≡ PlanFault.BadWeek) ⊎ ((e ≡ PlanFault.BadStation) ⊎ (e ≡ PlanFault.Memory))) }
    {
        let initial = setup.initial;
        match new_parts(alloc, setup.start, setup.station) {
            Ok(parts) => Ok(Gatherer {
                clock: Clock::new(setup),
                pending: parts.pending,
                closed: parts.closed,
                values: initial,
                locks: parts.locks,
                marks: parts.marks,
                counts: EpochCounts::default(),
                chosen: false,
                just_closed: false,
                has_ended: false,
            }),
            Err(fault) => {
                // A call drops it with less proof than the end of its scope.
                drop(setup);
                Err(fault)
            }
        }
    }

    /// Processes a message of any kind; `end` must not have been called. If the kind is
    /// `CloseFirst`, the pending epoch was closed and the message was not processed: pass it again
    /// at once.
    pub fn take(&mut self, m: &Message) -> Taken
        requires { self.old.has_ended ≡ false }
        ensures { TakesMessage self.old self.new (heard_by self.old.clock.setup m.now) result }
    {
        self.take_view(&m.view())
    }

    /// Processes a message as `take` does, but reads its cells from the bytes of the message.
    pub fn take_view(&mut self, view: &View<'_>) -> Taken
        requires { self.old.has_ended ≡ false }
        ensures { TakesMessage self.old self.new (heard_by self.old.clock.setup (viewed_message view.now)) result }
    {
        let said = summary_of(view, self.clock.setup().leap_seconds);
        let (kind, closed) = self.hear(&said);
        let kind = self.load(kind, view);
        self.note_closed(closed);
        Taken {
            kind,
            closed: self.has_closed(),
        }
    }

    /// Closes the pending epoch after the last message, and returns whether there was one and it is
    /// chosen. After the first call it returns `false`.
    pub fn end(&mut self) -> bool
        ensures closes { EndsPendingEpoch self.old self.new }
        ensures closed { result ≡ is_some (closed_in self.new) }
        ensures ended { self.new.has_ended ≡ true }
        ensures twice { self.old.has_ended ≡ true → (result ≡ false) × (self.new ≡ rested self.old) }
        ensures stays { StaysEnded self.old self.new }
    {
        let closed = !self.has_ended && self.clock.is_pending();
        self.has_ended = true;
        self.note_closed(closed);
        self.has_closed()
    }

    /// Returns the epoch that the last call of `take` or `end` closed, if it is chosen. `None` if
    /// that call closed no epoch, and before the first call.
    pub fn closed(&self) -> Option<&Epoch>
        ensures order { IfSome (option_map (λ e. e.now.epoch) result) (AreSortedByPlan (plan_in self.now)) }
        // The last epoch returned, with the station values that were known when it was closed.
        ensures closed { option_to_list (option_map (λ e. e.now) result)
            ≡ closed_by (closed_in self.now) self.now.values }
    {
        self.has_closed().then_some(&self.closed)
    }

    // Returns whether the last call closed a chosen epoch.
    #[inline(always)]
    fn has_closed(&self) -> bool
        ensures { result ≡ is_some (closed_in self.now) }
    {
        self.just_closed && self.chosen
    }

    /// Returns the numbers of the closed epochs that are not chosen and in which a satellite has a
    /// value. If none of those that are chosen has one, they are the numbers of all that have one.
    pub fn epoch_counts(&self) -> EpochCounts
        ensures now { result ≡ self.now.counts }
        ensures counts { CountsEpochs self.now result }
    {
        self.counts
    }

    /// Returns the choice of the epochs that are returned.
    pub fn choice(&self) -> &Choice
        ensures { result.now ≡ self.now.clock.setup.choice }
    {
        &self.clock.setup().choice
    }

    /// Returns whether `end` was called.
    pub fn ended(&self) -> bool
        ensures { result ≡ self.now.has_ended }
    {
        self.has_ended
    }

    /// Returns the number of kept cells of a system: those of the pending epoch and of the epoch
    /// closed last, which has none while another one is pending.
    pub fn cells(&self, system: System) -> usize
        ensures count { result ≡ length (cells_of system self.now.epoch) }
        ensures held { HoldsCells self.now system result }
        ensures bound { result ≤ most_cells }
    {
        self.pending.of(system).len() + self.closed.cells(system).len()
    }

    /// Returns the number of lock records: one for each satellite and signal of which a closed
    /// epoch has a kept cell with a valid phase and a known lock.
    pub fn locks(&self) -> usize
        ensures count { result ≡ recorded self.now.locks }
        ensures keys { HoldsLockedKeys self.now result }
        ensures bound { result ≤ most_locks }
    {
        self.locks.len()
    }

    /// Returns the current station values.
    pub fn station_values(&self) -> StationValues
        ensures now { result ≡ self.now.values }
        ensures given { (s : GatherSetup) (ms : List Heard) (es : List Closed) (again : Option Heard)
            → HasGatheredEpochs self.now s ms es again
            → result ≡ values_of s ms }
    {
        self.values
    }

    /// Returns the wanted signals.
    pub fn plan(&self) -> &Plan
        ensures { result.now ≡ plan_in self.now }
    {
        &self.clock.setup().plan
    }

    // Processes the time and the station values of a message, and returns its outcome, with counts
    // of 0, and whether the pending epoch is to be closed.
    fn hear(&mut self, said: &Summary) -> (Kind, bool)
        requires { ForSome said.now.time (λ tow. tow < week) }
        ensures kind { result.0 ≡ kind_by self.old.clock no_counts (heard_summary said.now) }
        ensures closed { result.1 ≡ is_some (closed_time self.old.clock (heard_summary said.now)) }
        ensures step { self.new ≡ begun_by self.old (heard_summary said.now) }
        ensures ended { ended_where result.1 self.new.clock ≡ step_by self.old.clock (heard_summary said.now) }
    {
        self.values = self.values_after(said);
        self.just_closed = false;
        let was_pending = self.clock.is_pending();
        let step = self.clock.step(said);
        clear_if(self.clock.is_pending() != was_pending, &mut self.closed);
        step
    }

    // Closes the pending epoch if it is to be closed, and records the locks of its cells.
    fn note_closed(&mut self, closed: bool)
        requires { closed ≡ true → self.old.clock.pending ≡ true }
        ensures { self.new ≡ thinned_if closed (closed_noted (shut_where closed self.old)) }
    {
        self.just_closed = closed;
        if !closed {
            return;
        }
        let at = self.clock.time();
        let plan = &self.clock.setup().plan;
        self.closed.close(&mut self.pending, plan, at, self.values);
        self.clock.end();
        let has_loss = note_systems(&mut self.locks, at.milliseconds(), &self.closed);
        self.thin(has_loss);
    }

    // Counts the epoch closed last if it is left out, marks its phases, and notes the loss of lock in
    // it, of which there is some or not.
    fn thin(&mut self, has_loss: bool)
        requires shut { self.old.clock.pending ≡ false }
        requires loss { has_loss ≡ any_loss self.old.epoch systems }
        ensures { self.new ≡ thinned self.old }
    {
        let time = self.closed.time();
        let choice = &self.clock.setup().choice;
        let in_window = choice.window_includes(time);
        let on_grid = choice.grid_includes(time);
        let has_interval = choice.interval.is_some();
        self.chosen = in_window & on_grid;
        let left_out = !self.chosen && self.closed.has_satellites();
        self.counts.count(left_out, in_window, on_grid);
        let marks = &mut self.marks;
        marks::carry(has_interval, marks, on_grid, has_loss, &mut self.closed);
    }

    // Returns the station values after a message.
    fn values_after(&self, said: &Summary) -> StationValues
        ensures { result ≡ values_after_message self.now.clock.setup self.now.values (heard_summary said.now) }
    {
        let values = self.values;
        match said.point {
            Some(parts) if self.clock.is_own(said) => StationValues {
                x: parts.x,
                y: parts.y,
                z: parts.z,
                height: parts.height.unwrap_or(values.height),
            },
            _ => values,
        }
    }

    // Processes the cells of a message of this outcome if it is accepted, and returns the outcome
    // with their counts.
    #[inline(never)]
    fn load(&mut self, kind: Kind, view: &View<'_>) -> Kind
        requires { is_accepted kind ≡ true → self.old.clock.pending ≡ true }
        ensures state { self.new ≡ (loaded_where (is_accepted kind) self.old
            (heard_by self.old.clock.setup (viewed_message view.now))).state }
        ensures kind { result ≡ with_counts (loaded_where (is_accepted kind) self.old
            (heard_by self.old.clock.setup (viewed_message view.now))).counts kind }
    {
        let Kind::Kept(_) = kind else { return kind };
        let mut counts = CellCounts::default();
        self.load_view(view, &mut counts);
        Kind::Kept(counts)
    }

    // Processes the cells of an accepted message, and counts their outcomes.
    // The counts are a parameter down to the loop: returned from it, they would be in registers that
    // are saved for each cell, 0.5 % of the instructions of `convert`.
    #[inline(always)]
    fn load_view(&mut self, view: &View<'_>, n: &mut CellCounts)
        requires pending { self.old.clock.pending ≡ true }
        requires none { n.old ≡ no_counts }
        ensures { record { state = self.new; counts = n.new }
            ≡ loaded_where true self.old (heard_by self.old.clock.setup (viewed_message view.now)) }
    {
        match view {
            View::Msm(m) => match m.system() {
                System::Gps => self.load_of::<0>(m, n),
                System::Galileo => self.load_of::<1>(m, n),
                _ => self.load_of::<2>(m, n),
            },
            View::Station(_) | View::Other { number: _, set: _ } => {}
        }
    }

    // Processes the cells of a message of system `S`: 0 for GPS, 1 for Galileo, 2 for any other.
    #[inline(always)]
    fn load_of<const S: usize>(&mut self, m: &MsmView<'_>, n: &mut CellCounts)
        requires system { system_as S m.now.msm.system ≡ m.now.msm.system }
        requires pending { self.old.clock.pending ≡ true }
        requires none { n.old ≡ no_counts }
        ensures { record { state = self.new; counts = n.new }
            ≡ load_entries m.now.form m.now.msm.system (unloaded self.old) (entries (messages.Msm m.now)) }
    {
        match m.form() {
            Form::Msm4 => self.load_as::<S, 4>(m, n),
            Form::Msm5 => self.load_as::<S, 5>(m, n),
            Form::Msm6 => self.load_as::<S, 6>(m, n),
            Form::Msm7 => self.load_as::<S, 7>(m, n),
        }
    }

    // Processes the cells of a message of system `S` and form `F`. It isn't inlined, so that the
    // loop over them is compiled by itself for each `S` and `F`.
    #[inline(never)]
    fn load_as<const S: usize, const F: usize>(&mut self, m: &MsmView<'_>, n: &mut CellCounts)
        requires form { form_as F ≡ m.now.form }
        requires system { system_as S m.now.msm.system ≡ m.now.msm.system }
        requires pending { self.old.clock.pending ≡ true }
        requires none { n.old ≡ no_counts }
        ensures { record { state = self.new; counts = n.new }
            ≡ load_entries m.now.form m.now.msm.system (unloaded self.old) (entries (messages.Msm m.now)) }
    {
        self.load_entries::<S, F>(m.system(), &mut m.entries(), n);
    }

    // Keeps a cell of a planned signal, unless a cell of its key is kept or there is no room, and
    // counts its outcome. It is of an epoch of this time, and of an entry that has a phase or not.
    #[inline(always)]
    fn load_cell(
        &mut self,
        system: System,
        time: u64,
        has_phase: bool,
        mut x: Cell,
        n: &mut CellCounts,
    )
        requires time { time ≡ time_in self.old.clock }
        requires phase { is_some x.l ≡ has_phase && not (lacks_channel self.old.clock.setup (heard_cell x)) }
        requires observed { IsObserved (heard_cell x) }
        requires system { x.satellite.system ≡ system }
        requires planned { is_some (place_in x.signal (planned_of x.satellite.system self.old.clock.setup.plan))
            ≡ true }
        requires pending { self.old.clock.pending ≡ true }
        requires few { cells_counted n.old < usize.MAX }
        requires less { n.old.without_channel ≤ n.old.kept }
        ensures counts { n.new ≡ count_in (lacks_channel self.old.clock.setup (heard_cell x))
            (outcome_in self.old (heard_cell x)) n.old }
        ensures step { self.new ≡ hold self.old (heard_cell x) }
    {
        let carrier = self
            .clock
            .setup()
            .plan
            .channels()
            .hertz(x.satellite, x.signal);
        let has_phase = has_phase && carrier.is_some();
        x.lli = lli(has_phase, &x, time, self.locks.latest(system, &x));
        n.add(self.pending.add(x), carrier.is_none());
    }

    // Processes the cells of a message of this system, which is `S`, and form `F`, and counts their
    // outcomes.
    // A function of its own: as a part of `load_as`, `convert` executes 2 % more instructions.
    fn load_entries<const S: usize, const F: usize>(
        &mut self,
        system: System,
        cells: &mut Entries<'_>,
        n: &mut CellCounts,
    )
        requires form { form_as F ≡ cells.old.form }
        requires system { system_as S system ≡ system }
        requires pending { self.old.clock.pending ≡ true }
        requires none { n.old ≡ no_counts }
        requires few { length cells.old.left ≤ most_pairs }
        ensures { record { state = self.new; counts = n.new }
            ≡ load_entries cells.old.form system (unloaded self.old) cells.old.left }
    {
        let (form, system) = (form_as::<F>(), system_as::<S>(system));
        let time = self.clock.time().milliseconds();
        while let Some(entry) = cells.next_in::<F>() {
            self.load_entry(form, system, time, &entry, n);
        }
    }

    // Processes a cell of a message, and counts its outcome.
    #[inline(always)]
    fn load_entry(
        &mut self,
        form: Form,
        system: System,
        time: u64,
        entry: &Entry,
        n: &mut CellCounts,
    )
        requires time { time ≡ time_in self.old.clock }
        requires entry { IsEntry (lock_codes form) entry.now }
        requires pending { self.old.clock.pending ≡ true }
        requires few { cells_counted n.old < usize.MAX }
        requires less { n.old.without_channel ≤ n.old.kept }
        ensures step { record { state = self.new; counts = n.new }
            ≡ load_entry form system (record { state = self.old; counts = n.old }) entry.now }
    {
        match observe(&self.clock.setup().plan, form, system, entry) {
            None => n.skipped += 1,
            Some(x) => self.load_cell(system, time, entry.phase.is_some(), x, n),
        }
    }
}

// Returns a system that is `S`, as a constant if it is GPS or Galileo.
#[inline(always)]
fn system_as<const S: usize>(system: System) -> System
    requires { system_as S system ≡ system }
    ensures { result ≡ system }
{
    match S {
        0 => System::Gps,
        1 => System::Galileo,
        _ => system,
    }
}

// Removes the cells of the epoch closed last if another one begins, so that those of one epoch are
// held.
fn clear_if(begins: bool, last: &mut Epoch)
    ensures { last.new ≡ cleared_if begins last.old }
{
    if begins {
        last.clear();
    }
}
