//! Laws of the definitions: each is the contract of a function without a body.
ghost use Rattle.std.specs.Prelude.{◌≡◌, ◌+◌, ◌*◌, ◌^◌, ◌<◌, ◌≤◌, ◌≤ℤ◌, ℕ, ℤ, pos, unsigned_abs, Some, IfSome};
ghost use Rattle.gnss_obs.specs.LockTimes.{last4, last7, least4, least7};
ghost use Rattle.gnss_obs.specs.Rounding.{IsNearest, nearest};
ghost use Rattle.gnss_obs.specs.Observables.{nearest_pseudorange, nearest_phase, nearest_doppler, nearest_strength};
ghost use Rattle.gnss_system.specs.Signals.{SignalAt, IsSignal, greatest_signal_id, after, id_of, code_of, most_hertz};
ghost use Rattle.gnss_system.specs.Signals.{signal_of_id, signal_of_code};
ghost use Rattle.gnss_system.specs.Satellites.{Satellite};
ghost use Rattle.gnss_obs.specs.Channels.{AreChannels, ChannelsValue, hertz_in};
ghost use Rattle.gnss_obs.specs.Values.{HasTwelveDigits};
ghost use Rattle.gnss_obs.specs.Weeks.{week, weeks};
ghost use Rattle.gnss_obs.specs.Dates.{IsCivilOf, civil_of};
ghost use Rattle.gnss_obs.specs.Plans.{CodesNameTheirSignals};

/// Exactly one whole number is nearest to a fraction, and `nearest` computes it.
pub fn one_nearest()
    ensures is { (a : ℤ) (q : ℕ) → 0 < q → IsNearest a q (nearest a q) }
    ensures one { (a : ℤ) (q : ℕ) (t u : ℤ) → 0 < q → IsNearest a q t → IsNearest a q u → t ≡ u }
{}

/// The signal tables: the IDs are positions in the signal mask DF395 and rise, and each signal is
/// found by its ID and by its code, so that no two signals of a system share an ID or a code.
pub fn signal_tables()
    ensures ids { (s : SignalAt) → IsSignal s → (1 ≤ id_of s) × (id_of s ≤ greatest_signal_id) }
    ensures rising { (s : SignalAt) → IsSignal (after s) → id_of s < id_of (after s) }
    ensures id_reads_back { (s : SignalAt) → IsSignal s → signal_of_id s.system (id_of s) ≡ Some s }
    ensures code_reads_back { (s : SignalAt) → IsSignal s → signal_of_code s.system (code_of s) ≡ Some s }
{}

/// The lock time indicators: the least times rise with the indicator, so that each upper bound is
/// above its least time. Those of DF407 are milliseconds up to 64, and from 32 on an indicator that
/// is larger by 32 has twice the time.
pub fn lock_times()
    ensures rising4 { (i : ℕ) → i < last4 → least4 i < least4 (i + 1) }
    ensures rising7 { (i : ℕ) → i < last7 → least7 i < least7 (i + 1) }
    ensures counts7 { (i : ℕ) → i ≤ 64 → least7 i ≡ i }
    ensures doubles7 { (i : ℕ) → 32 ≤ i → i + 32 ≤ last7 → least7 (i + 32) ≡ 2 * least7 i }
{}

/// The range of the values of a message: below 10^12 thousandths in size, and a strength from 1 to
/// 99,999 thousandths.
pub fn sizes()
    ensures metres { (r : ℤ) → unsigned_abs r ≤ 2 ^ 40 → HasTwelveDigits (nearest_pseudorange r) }
    ensures carriers { (channels : ChannelsValue) (satellite : Satellite) (s : SignalAt) → AreChannels channels
        → IfSome (hertz_in channels satellite s) (λ h. h ≤ most_hertz) }
    ensures cycles { (h : ℕ) (p : ℤ) → h ≤ most_hertz → unsigned_abs p ≤ 2 ^ 39 → HasTwelveDigits (nearest_phase h p) }
    ensures shift { (h : ℕ) (v : ℤ) → h ≤ most_hertz → unsigned_abs v ≤ 10 ^ 8 → HasTwelveDigits (nearest_doppler h v) }
    ensures decibels { (s : ℕ) → 0 < s → s < 2 ^ 10
        → (pos 1 ≤ℤ nearest_strength s) × (nearest_strength s ≤ℤ pos 99_999) }
{}

/// A list of codes gives the signals of these codes, one by one, and no two are the same.
pub fn plans()
    ensures { CodesNameTheirSignals }
{}

/// Each time has a date and a time of day.
pub fn calendar()
    ensures civil { (t : ℕ) → t < weeks * week → IsCivilOf t (civil_of t) }
    ensures small { (t : ℕ) → t < weeks * week
        → ((civil_of t).year ≤ 9999) × ((civil_of t).month ≤ 12) × ((civil_of t).day ≤ 31) }
{}
