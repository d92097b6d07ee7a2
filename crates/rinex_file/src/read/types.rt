//! The observation types in a header, read back.
ghost use Rattle.std.specs.Prelude.{◌≡◌, ◌≤◌, ◌<◌, ◌+◌, [], ◌==◌, ℕ, List, take, length, min, IfSome};
ghost use Rattle.std.specs.Prelude.{OnOk, Err, Some};
ghost use Rattle.gnss_system.specs.Signals.{SignalAt, IsSignal, table};
ghost use Rattle.gnss_obs.specs.SignalLists.{indices};
ghost use Rattle.gnss_obs.specs.inner.SignalLists.{IsOf};
ghost use Rattle.rinex_file.specs.Header.{type_rows};
ghost use Rattle.rinex_file.specs.inner.Header.{most_type_rows};
ghost use Rattle.rinex_file.specs.inner.Read.Progress.{signals_begun};
ghost use Rattle.rinex_file.specs.inner.Read.HeaderSteps.{HasSignalAt, IsLineOfTypes, RefusesTypes, TakesTypes};

use crate::header::lists::{TYPES_IN_LINE, type_rows, types_with};
use crate::read::parser_state::Refusal;
use gnss_obs::{Signal, Signals};
use gnss_system::System;
use rinex_columns::{columns, digits_in, is_same};
use std::alloc::Global;

/// What was read of the types of a system.
#[derive(Drop)]
pub(crate) struct TypesSoFar {
    /// The number of planned signals, by the first line of types; zero before it is read.
    pub(crate) count: usize,
    /// The signals whose types begin in the lines that were read.
    pub(crate) signals: Signals,
}

impl TypesSoFar {
    /// Returns the types of a system of which nothing was read.
    pub(crate) fn new(alloc: Global) -> TypesSoFar
        ensures count { result.count ≡ 0 }
        ensures signals { result.signals ≡ [] }
    {
        TypesSoFar {
            count: 0,
            signals: Signals::new(alloc),
        }
    }

    /// Returns the number of planned signals, if this line of types is expected.
    fn read_count(&self, system: System, row: usize, line: &[u8]) -> Option<usize>
        requires few { self.now.count ≤ length (table system) }
        requires rows { 0 < row → row < type_rows self.now.count }
        ensures few { IfSome result (λ n. n ≤ length (table system)) }
        ensures rows { IfSome result (λ n. row < type_rows n) }
        ensures later { IfSome result (λ n. 0 < row → self.now.count ≡ n) }
        ensures count { (old all : List ℕ) → IsLineOfTypes system row line.now self.now.count old all
            → result ≡ Some (length all) }
    {
        if row > 0 {
            return Some(self.count);
        }
        let types = digits_in(columns(line, 3, 3));
        let count = types as usize / 4;
        if count == 0 || count > system.signals() {
            return None;
        }
        Some(count)
    }

    /// Processes a line of the types of the system: appends the signals whose types begin in it.
    pub(crate) fn take(&mut self, system: System, row: usize, line: &[u8]) -> Result<(), Refusal>
        requires few { self.old.count ≤ length (table system) }
        requires rows { 0 < row → row < type_rows self.old.count }
        requires signals { IsOf system self.old.signals }
        requires begun { length self.old.signals ≡ signals_begun row }
        ensures few { self.new.count ≤ length (table system) }
        ensures signals { IsOf system self.new.signals }
        ensures taken { OnOk result (TakesTypes system row line.now self.old.count (indices self.old.signals)
            self.new.count (indices self.new.signals)) }
        ensures bad { result ≡ Err Refusal.Bad
            → RefusesTypes system row line.now self.old.count (indices self.old.signals) }
    {
        let count = self.read_count(system, row, line).ok_or(Refusal::Bad)?;
        take_signals(&mut self.signals, system, count, row, line)?;
        self.count = count;
        let again = types_with(system, count, self.signals.as_slice(), row);
        is_same(line, again.as_slice())
            .then_some(())
            .ok_or(Refusal::Bad)
    }
}

/// Appends the signals of the codes in a line of types that follow a `C`, the letter of a signal's
/// first type.
#[tactic(auto, using(crate::proofs::Names::short_table))]
fn take_signals(
    signals: &mut Signals,
    system: System,
    count: usize,
    row: usize,
    line: &[u8],
) -> Result<(), Refusal>
    requires count { count ≤ length (table system) }
    requires row { row < type_rows count }
    requires signals { IsOf system signals.old }
    requires begun { length signals.old ≡ signals_begun row }
    ensures signals { IsOf system signals.new }
    ensures grows { OnOk result (take (length signals.old) signals.new ≡ signals.old) }
    ensures size { OnOk result (length signals.new ≡ min (signals_begun (row + 1)) count) }
    ensures taken { OnOk result ((before : ℕ) (all : List ℕ)
        → IsLineOfTypes system row line.now before (indices signals.old) all → length all ≡ count
        → indices signals.new ≡ take (signals_begun (row + 1)) all) }
    ensures bad { result ≡ Err Refusal.Bad → (before : ℕ) (all : List ℕ)
        → IsLineOfTypes system row line.now before (indices signals.old) all → length all ≡ count → ⊥ }
{
    let end = signals_begun(row + 1).min(count);
    for place in signals_begun(row)..end {
        // After six columns, each type has four: a blank, its letter and the signal's code. The
        // first of a signal's four types is the one at `4 * place` among all types.
        let column = 6 + 4 * (4 * place - TYPES_IN_LINE * row) + 2;
        let signal = signal_in(line, system, column).ok_or(Refusal::Bad)?;
        if !signals.add(signal).map_err(|_| Refusal::Memory)? {
            return Err(Refusal::Bad);
        }
    }
    Ok(())
}

/// Returns the number of signals whose types begin in the lines before `row`.
pub(crate) fn signals_begun(row: usize) -> usize
    requires { row ≤ most_type_rows }
    ensures { result ≡ signals_begun row }
{
    (TYPES_IN_LINE * row + 3) / 4
}

/// Returns the signal whose code is at a column, counted from 0.
fn signal_in(line: &[u8], system: System, column: usize) -> Option<Signal>
    requires { column ≤ 100 }
    ensures system { IfSome result (λ s. (s.system ≡ system) × IsSignal s) }
    ensures read { (s : SignalAt) → HasSignalAt system line.now column s → result ≡ Some s }
{
    let code = str::from_utf8(columns(line, column, 2)).ok()?;
    Signal::from_code(system, code)
}
