//! Plans: the wanted signals of each system.
ghost use Rattle.std.specs.Prelude.{◌≡◌, ◌<◌, ◌≤◌, [], true, length, slice_index, codes, nat_eq, All, IfErr, IsOk, Err};
ghost use Rattle.gnss_system.specs.declared.system.System.{System};
ghost use Rattle.gnss_system.specs.declared.system.System.TheVariants.{Glonass};
ghost use Rattle.gnss_system.specs.Systems.{systems};
ghost use Rattle.gnss_system.specs.SystemValues.{value_of, tabulate, map_by, of_two};
ghost use Rattle.std.specs.List.{sum_by, IsDistinct};
ghost use Rattle.gnss_system.specs.Signals.{table};
ghost use Rattle.gnss_obs.specs.Channels.{AreChannels, no_channels};
ghost use Rattle.gnss_obs.specs.Order.{Rise};
ghost use Rattle.gnss_obs.specs.Values.{planned_of};
ghost use Rattle.gnss_obs.specs.Plans.{plan_of, planned_signal, signals_of, signals_coded, place_in, between_commas};
ghost use Rattle.gnss_obs.specs.Plans.{has_signal, HasSignal, is_first_listed, is_none_planned, with_channels};
ghost use Rattle.gnss_obs.specs.SignalLists.{indices};
ghost use Rattle.gnss_obs.specs.inner.SignalLists.{IsOf, ArePlanned, HasEvery, IsPushed};
ghost use Rattle.gnss_obs.specs.inner.SignalLists.{BeginsWithOwn, HasOwn, MayAdd, MayTakeCode};
ghost use Rattle.gnss_obs.specs.inner.SignalLists.{TakesCode, RefusesCode, IsDefined, DoneOr, IsUnfitAfter, IsUnfit};
ghost use Rattle.gnss_obs.specs.inner.SignalLists.{IsMade, IsPlanResult, IsUnplanned, AreRead, AreAdded};

use crate::channels::Channels;
use crate::fault::PlanFault;
use crate::signal::Signal;
use crate::signals::Signals;
use gnss_system::{BySystem, SYSTEMS, System};
use std::alloc::Global;
use std::marker::Model;

/// The wanted signals of each system, in the order in which they are written: at least one signal
/// in all. And the channels of the GLONASS satellites.
#[derive(Drop)]
pub struct Plan {
    signals: BySystem<Signals>,
    channels: Channels,
}

impl Model for Plan {
    ghost use Rattle.gnss_system.specs.declared.system.System.{System};
    ghost use Rattle.gnss_system.specs.SystemValues.{value_of, map_by};
    ghost use Rattle.gnss_obs.specs.Values.{PlanValue};
    ghost use Rattle.std.specs.Prelude.{◌≡◌, []};
    ghost use Rattle.gnss_system.specs.declared.system.System.TheVariants.{Glonass};
    ghost use Rattle.gnss_obs.specs.Channels.{no_channels};
    ghost use Rattle.gnss_obs.specs.SignalLists.{indices};
    ghost use Rattle.gnss_obs.specs.inner.SignalLists.{IsOf};

    ghost Value = { PlanValue };

    ghost view = { λ p. record { signals = map_by indices p.signals; channels = p.channels } };

    ghost invariant = { λ p. ((s : System) → IsOf s (value_of s p.signals))
        × (value_of Glonass p.signals ≡ [] → p.channels ≡ no_channels) };
}

impl Plan {
    /// Parses a plan from a text for GPS and one for Galileo, as `parse_all` does.
    ///
    /// # Errors
    ///
    /// As of `parse_all`.
    pub fn parse(alloc: Global, gps: &str, galileo: &str) -> Result<Plan, PlanFault>
        ensures { IsDefined (HasSignal (of_two gps.now galileo.now (codes "none")))
            (plan_of (of_two gps.now galileo.now (codes "none"))) result }
    {
        Plan::parse_all(alloc, &BySystem::of_two(gps, galileo, "none"))
    }

    /// Parses a plan from a text for each system. A text is `all` for all signals in the order of
    /// the system's table, `none`, or a list of signal codes separated by single commas, such as
    /// `1C,2W`. An empty text is a list of one unknown code. The texts are parsed in the order of
    /// the systems, each from the left.
    ///
    /// # Errors
    ///
    /// The first fault: `UnknownCode` for a code that isn't in the system's table, `RepeatedCode`
    /// for a repeated code, `NothingPlanned` if all texts are `none`. Or `Memory` if an allocation
    /// failed, which there is only for a signal before the first fault.
    pub fn parse_all(alloc: Global, texts: &BySystem<&str>) -> Result<Plan, PlanFault>
        ensures { IsDefined (HasSignal (map_by (λ t. t.now) texts.now)) (plan_of (map_by (λ t. t.now) texts.now)) result }
    {
        let mut lists = no_signals(alloc);
        let read = read_all(&mut lists, texts);
        Plan::with(read, lists)
    }

    /// Returns the plan of these signals of each system in this order.
    ///
    /// # Errors
    ///
    /// `NothingPlanned` if there is no signal, else the first fault, in the order of the systems
    /// and from the left: `UnknownCode` for a signal of another system, `RepeatedCode` for a
    /// repeated signal. Or `Memory` if an allocation failed, which there is only for a signal
    /// before the first fault.
    pub fn from_lists(alloc: Global, signals: &BySystem<&[Signal]>) -> Result<Plan, PlanFault>
        ensures cases { IsPlanResult (map_by (λ l. l.now) signals.now) result }
        ensures planned { ((s : System) → IsOf s (value_of s signals.now).now)
            → 0 < sum_by (λ s. length (value_of s signals.now).now) systems → IfErr result (λ e. e ≡ PlanFault.Memory) }
    {
        let mut lists = no_signals(alloc);
        let added = add_all(&mut lists, signals);
        Plan::with(added, lists)
    }

    // Returns the plan of these signals, if they were added without a fault and there is one.
    fn with(added: Result<(), PlanFault>, signals: BySystem<Signals>) -> Result<Plan, PlanFault>
        requires { IsOk added → (s : System) → IsOf s (value_of s signals) }
        ensures { IsMade added signals result }
    {
        let channels = Channels::none();
        let fault = match added {
            Err(fault) => fault,
            Ok(()) if is_none_planned(&signals) => PlanFault::NothingPlanned,
            Ok(()) => return Ok(Plan { signals, channels }),
        };
        // A call drops a list with less proof than the end of its scope.
        drop(signals);
        Err(fault)
    }

    /// Returns the plan of the same signals with these channels of the GLONASS satellites, or with
    /// none if no signal of GLONASS is wanted. Other calls return plans with none.
    pub fn with_channels(self, channels: Channels) -> Plan
        ensures { result ≡ with_channels self channels }
    {
        if self.list(System::Glonass).is_empty() {
            return Plan {
                channels: Channels::none(),
                ..self
            };
        }
        Plan { channels, ..self }
    }

    /// Returns the channels of the GLONASS satellites.
    #[inline(always)]
    pub fn channels(&self) -> &Channels
        ensures { result.now ≡ self.now.channels }
    {
        &self.channels
    }

    /// Returns the number of wanted signals of a system.
    pub fn signals(&self, system: System) -> usize
        ensures count { result ≡ length (planned_of system self.now) }
        ensures bound { result ≤ length (table system) }
    {
        self.of(system).len()
    }

    /// Returns the wanted signals of a system, in the order of the plan.
    pub fn of(&self, system: System) -> &[Signal]
        ensures indices { indices result.now ≡ planned_of system self.now }
        ensures system { IsOf system result.now }
    {
        self.list(system).as_slice()
    }

    /// Shows that the wanted signals of each system are of its table, and none of them twice; and
    /// that no channel is known if no signal of GLONASS is wanted.
    pub fn are_listed(&self)
        ensures listed { (s : System) → All (λ i. i < length (table s)) (planned_of s self.now) }
        ensures apart { (s : System) → IsDistinct nat_eq (planned_of s self.now) }
        ensures channels { AreChannels self.now.channels }
        ensures unplanned { planned_of Glonass self.now ≡ [] → self.now.channels ≡ no_channels }
    {
        // The prover knows the invariant of a type once a field is read.
        self.channels.are_channels();
    }

    /// Returns the wanted signal of a system at this index.
    pub fn signal(&self, system: System, place: usize) -> Signal
        requires { place < length (planned_of system self.now) }
        ensures index { result.index ≡ slice_index (planned_of system self.now) place }
        ensures system { result.system ≡ system }
    {
        self.of(system)[place]
    }

    /// Returns the index of a signal among the wanted signals of its system. `None` if it isn't
    /// wanted.
    pub fn place(&self, signal: Signal) -> Option<usize>
        ensures place { result ≡ place_in signal (planned_of signal.system self.now) }
    {
        self.list(signal.system()).place(signal)
    }

    /// Returns the wanted signal of a system with this ID, or `None` if there is none.
    #[inline(always)]
    pub fn wanted(&self, system: System, id: u8) -> Option<Signal>
        ensures { result ≡ planned_signal system (planned_of system self.now) id }
    {
        Signal::from_index(system, self.list(system).row_of(id))
    }

    /// Returns `true` only if the wanted signals of a system are in the order of its table.
    pub(crate) fn is_in_table_order(&self, system: System) -> bool
        ensures { result ≡ true → Rise (planned_of system self.now) }
    {
        self.list(system).is_in_table_order()
    }

    /// Returns the list of the wanted signals of a system.
    #[inline(always)]
    pub fn list(&self, system: System) -> &Signals
        ensures indices { indices result.now ≡ planned_of system self.now }
        ensures system { IsOf system result.now }
    {
        self.signals.of(system)
    }
}

// The functions below that can fail append to lists of the caller, so none of them has to free one.

// Returns an empty list for each system.
fn no_signals(alloc: Global) -> BySystem<Signals>
    ensures { result ≡ tabulate (λ s. []) }
{
    BySystem::each(|_| Signals::new(alloc))
}

// Returns whether there is no signal of a system.
fn is_none_planned(lists: &BySystem<Signals>) -> bool
    ensures { result ≡ is_none_planned lists.now }
{
    SYSTEMS.iter().all(|system| lists.of(*system).is_empty())
}

// Appends the signals of the text of each system.
fn read_all(lists: &mut BySystem<Signals>, texts: &BySystem<&str>) -> Result<(), PlanFault>
    requires { lists.old ≡ tabulate (λ s. []) }
    ensures { DoneOr (HasSignal (map_by (λ t. t.now) texts.now)) (λ e. plan_of (map_by (λ t. t.now) texts.now) ≡ Err e)
        (AreRead (map_by (λ t. t.now) texts.now) lists.new) result }
{
    for i in 0..SYSTEMS.len() {
        let system = System::at(i);
        read_signals(lists.of_mut(system), system, texts.of(system))?;
    }
    Ok(())
}

// Appends the signals of each system.
fn add_all(lists: &mut BySystem<Signals>, signals: &BySystem<&[Signal]>) -> Result<(), PlanFault>
    requires { lists.old ≡ tabulate (λ s. []) }
    ensures { DoneOr (HasOwn (map_by (λ l. l.now) signals.now)) (IsUnplanned (map_by (λ l. l.now) signals.now))
        (AreAdded (map_by (λ l. l.now) signals.now) lists.new) result }
{
    for i in 0..SYSTEMS.len() {
        let system = System::at(i);
        add_signals(lists.of_mut(system), system, signals.of(system))?;
    }
    Ok(())
}

// Appends these signals of a system: none of another system, none twice.
fn add_signals(added: &mut Signals, system: System, signals: &[Signal]) -> Result<(), PlanFault>
    requires { added.old ≡ [] }
    ensures { DoneOr (BeginsWithOwn system signals.now) (IsUnfit system signals.now)
        ((added.new ≡ signals.now) × IsOf system signals.now) result }
{
    for signal in signals {
        add_signal(added, system, *signal)?;
    }
    Ok(())
}

// Appends a signal.
fn add_signal(signals: &mut Signals, system: System, signal: Signal) -> Result<(), PlanFault>
    requires { IsOf system signals.old }
    ensures { DoneOr (MayAdd system signals.old signal) (IsUnfitAfter system signals.old signal)
        (IsPushed system signals.old signal signals.new) result }
{
    let place = signals.len();
    if signal.system() != system {
        return Err(PlanFault::UnknownCode(system, place));
    }
    match signals.add(signal) {
        Ok(true) => Ok(()),
        Ok(false) => Err(PlanFault::RepeatedCode(system, place)),
        Err(_) => Err(PlanFault::Memory),
    }
}

// Appends the signals of a text.
fn read_signals(signals: &mut Signals, system: System, text: &str) -> Result<(), PlanFault>
    requires { signals.old ≡ [] }
    ensures { DoneOr (has_signal system text.now ≡ true) (λ e. signals_of system text.now ≡ Err e)
        (ArePlanned system (signals_of system text.now) signals.new) result }
{
    match text {
        "all" => add_every(signals, system),
        "none" => Ok(()),
        _ => read_codes(signals, system, text),
    }
}

// Appends all signals of a table in its order.
fn add_every(signals: &mut Signals, system: System) -> Result<(), PlanFault>
    requires { signals.old ≡ [] }
    ensures { HasEvery system signals.new result }
{
    for index in 0..system.signals() {
        let signal = Signal::from_index(system, index).unwrap();
        signals.add(signal).map_err(|_| PlanFault::Memory)?;
    }
    Ok(())
}

// Appends the signals of codes separated by commas.
fn read_codes(signals: &mut Signals, system: System, text: &str) -> Result<(), PlanFault>
    requires { signals.old ≡ [] }
    ensures { DoneOr (is_first_listed system (between_commas text.now) ≡ true)
        (λ e. signals_coded system text.now ≡ Err e)
        (ArePlanned system (signals_coded system text.now) signals.new) result }
{
    let mut rest = text;
    while let Some((code, after)) = rest.split_once(',') {
        add_code(signals, system, code)?;
        rest = after;
    }
    add_code(signals, system, rest)
}

// Appends the signal of a code.
fn add_code(signals: &mut Signals, system: System, code: &str) -> Result<(), PlanFault>
    requires { IsOf system signals.old }
    ensures { DoneOr (MayTakeCode system code.now signals.old) (RefusesCode system code.now signals.old)
        (TakesCode system code.now signals.old signals.new) result }
{
    let unknown = PlanFault::UnknownCode(system, signals.len());
    let signal = Signal::from_code(system, code).ok_or(unknown)?;
    add_signal(signals, system, signal)
}
