//! Pseudorange, carrier phase, Doppler shift and signal strength, rounded to thousandths.
ghost use Rattle.std.specs.Prelude.{◌≡◌, ◌+◌, ◌*◌, ◌/◌, ◌^◌, ◌<◌, ◌≤◌, ◌*ℤ◌, ◌-ℤ◌, ◌≤ℤ◌, ◌<ℤ◌, unsigned_abs, pos, IfSome};
ghost use Rattle.std.specs.Option.{option_map, ForSome};
ghost use Rattle.gnss_obs.specs.Channels.{IsCarrier};
ghost use Rattle.gnss_obs.specs.Values.{HasTwelveDigits};
ghost use Rattle.gnss_obs.specs.Rounding.{IsRounded, nearest};
ghost use Rattle.gnss_obs.specs.Observables.{light, nearest_pseudorange, nearest_phase, nearest_doppler, phase_by};
ghost use Rattle.gnss_obs.specs.Observables.{doppler_by, nearest_strength, strength_digit};
ghost use Rattle.gnss_system.specs.Signals.{hertz_of};

use crate::{Signal, Thousandths};

/// Speed of light, in metres per second.
const LIGHT: u32 = 299_792_458;

/// Returns the pseudorange in metres from a range in units of 2^-31 ms, the sum of DF397, DF398 and
/// DF400 or DF405 of RTCM 10403.3, at most 2^40 in size. `None` if there is no range.
pub fn pseudorange(range: Option<i64>) -> Option<Thousandths>
    requires { ForSome range (λ r. unsigned_abs r ≤ 2 ^ 40) }
    ensures rounded { IsRounded (λ r. r *ℤ pos light) (2 ^ 31) range result }
    ensures value { result ≡ option_map nearest_pseudorange range }
    ensures bound { IfSome result HasTwelveDigits }
{
    match range {
        None => None,
        Some(r) => Some(Thousandths::new(nearest_whole(r, LIGHT, 1 << 30))),
    }
}

/// Returns the carrier phase in cycles from a phase range in units of 2^-31 ms, the sum of DF397,
/// DF398 and DF401 or DF406 of RTCM 10403.3, at most 2^39 in size. `None` if there is no phase
/// range.
pub fn phase(phase: Option<i64>, signal: Signal) -> Option<Thousandths>
    requires { ForSome phase (λ p. unsigned_abs p ≤ 2 ^ 39) }
    ensures rounded { IsRounded (λ p. p *ℤ pos (hertz_of signal)) (2 ^ 31) phase result }
    ensures value { result ≡ option_map (nearest_phase (hertz_of signal)) phase }
    ensures bound { IfSome result HasTwelveDigits }
{
    phase_at(phase, Some(signal.hertz()))
}

/// Returns the carrier phase as `phase` does, at a carrier frequency in hertz, at most
/// 1,605,375,000. `None` also if there is no carrier.
#[inline(always)]
pub fn phase_at(phase: Option<i64>, hertz: Option<u32>) -> Option<Thousandths>
    requires range { ForSome phase (λ p. unsigned_abs p ≤ 2 ^ 39) }
    requires carrier { IfSome hertz IsCarrier }
    ensures value { result ≡ phase_by hertz phase }
    ensures bound { IfSome result HasTwelveDigits }
{
    match (phase, hertz) {
        (Some(p), Some(h)) => Some(Thousandths::new(nearest_whole(p, h, 1 << 30))),
        _ => None,
    }
}

/// Returns the Doppler shift in hertz from a phase range rate in units of 0.0001 m/s, the sum of
/// DF399 and DF404 of RTCM 10403.3, at most 10^8 in size. It is positive if the rate is negative:
/// the satellite approaches. `None` if there is no rate.
pub fn doppler(rate: Option<i32>, signal: Signal) -> Option<Thousandths>
    requires { ForSome rate (λ v. unsigned_abs v ≤ 10 ^ 8) }
    ensures rounded { IsRounded (λ v. pos 0 -ℤ (v *ℤ pos (hertz_of signal))) (10 * light) rate result }
    ensures value { result ≡ option_map (nearest_doppler (hertz_of signal)) rate }
    ensures bound { IfSome result HasTwelveDigits }
{
    doppler_at(rate, Some(signal.hertz()))
}

/// Returns the Doppler shift as `doppler` does, at a carrier frequency in hertz, at most
/// 1,605,375,000. `None` also if there is no carrier.
#[inline(always)]
pub fn doppler_at(rate: Option<i32>, hertz: Option<u32>) -> Option<Thousandths>
    requires range { ForSome rate (λ v. unsigned_abs v ≤ 10 ^ 8) }
    requires carrier { IfSome hertz IsCarrier }
    ensures value { result ≡ doppler_by hertz rate }
    ensures bound { IfSome result HasTwelveDigits }
{
    match (rate, hertz) {
        (Some(v), Some(h)) => Some(Thousandths::new(nearest_whole(0 - v as i64, h, 5 * LIGHT))),
        _ => None,
    }
}

/// Returns the signal strength in dB-Hz from a carrier to noise ratio in units of 1/16 dB-Hz, DF403
/// or DF408 of RTCM 10403.3, below 1,024. `None` if there is no ratio.
pub fn strength(strength: Option<u16>) -> Option<Thousandths>
    requires { ForSome strength (λ s. s < 1024) }
    ensures rounded { IsRounded (λ s. pos (s * 1000)) 16 strength result }
    ensures value { result ≡ option_map nearest_strength strength }
    ensures bound { IfSome result HasTwelveDigits }
    ensures range { IfSome result (λ t. (pos 0 ≤ℤ t) × (t <ℤ pos 100000)) }
    ensures positive { ForSome strength (λ s. 0 < s → IfSome result (λ t. pos 0 <ℤ t)) }
{
    match strength {
        None => None,
        Some(s) => Some(Thousandths::new(nearest_whole(s as i64, 1000, 8))),
    }
}

/// Returns the signal strength indicator of a strength in dB-Hz, 1 to 9: whole steps of 6 dB-Hz
/// (RINEX 3.05, the signal strength indicator SSI).
pub fn strength_digit(strength: Thousandths) -> u8
    ensures { result ≡ strength_digit strength }
{
    (strength.value().clamp(6_000, 54_000) as u32 / 6_000) as u8
}

/// Returns the whole number nearest to `x * factor / (2 * half)`, ties away from zero.
#[inline(always)]
fn nearest_whole(x: i64, factor: u32, half: u32) -> i64
    requires factor { 0 < factor }
    requires half { 0 < half }
    requires size { unsigned_abs x * factor ≤ half * 2 ^ 62 }
    ensures { result ≡ nearest (x *ℤ pos factor) (2 * half) }
{
    // Each sign has a division of its own: this takes fewer instructions than to apply the sign.
    if x < 0 {
        0 - nearest_size(x.unsigned_abs(), factor, half) as i64
    } else {
        nearest_size(x as u64, factor, half) as i64
    }
}

/// Returns the whole number nearest to `size * factor / (2 * half)`, ties up.
#[inline(always)]
fn nearest_size(size: u64, factor: u32, half: u32) -> u64
    requires half { 0 < half }
    requires size { size * factor ≤ half * 2 ^ 62 }
    ensures value { result ≡ (size * factor + half) / (2 * half) }
    ensures bound { result < 2 ^ 62 }
{
    let above = size as u128 * factor as u128 + half as u128;
    (above / (2 * half as u128)) as u64
}
