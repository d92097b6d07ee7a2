//! Lock times, as given by the indicators DF402 and DF407 of RTCM 10403.3.
ghost use Rattle.std.specs.Prelude.{◌≡◌, ◌+◌, ◌^◌, ◌<◌, ◌≤◌, ◌↔◌, IsTrue, None};
ghost use Rattle.gnss_obs.specs.LockTimes.{LockTime, IsLost, last4, last7, times4, times7, lost, time_of, word_of};
ghost use Rattle.gnss_obs.specs.LockTimes as LockTimes;

use std::marker::Model;

/// The greatest indicator DF402.
const LAST_DF402: u8 = 15;

/// The greatest indicator DF407 that has a time.
const LAST_DF407: u16 = 704;

/// The word stored in place of a time if there is none.
const NO_TIME: u32 = u32::MAX;

/// The time for which a receiver has tracked a phase without a break, in milliseconds, as given by
/// a lock time indicator: a range with its least value included and its upper value excluded.
#[derive(Clone, Copy)]
pub struct Lock {
    // Milliseconds, or `NO_TIME`.
    least: u32,
    upper: u32,
}

impl Model for Lock {
    ghost Value = { LockTime };

    ghost view = { λ l. record { least = time_of l.least; upper = time_of l.upper } };

    ghost inverse = { λ t. record { least = word_of t.least; upper = word_of t.upper } };
}

impl Default for Lock {
    /// Returns an unknown lock.
    fn default() -> Lock
        ensures { result ≡ record { least = None; upper = None } }
    {
        Lock {
            least: NO_TIME,
            upper: NO_TIME,
        }
    }
}

/// Returns the time stored as this word.
fn time_of(word: u32) -> Option<u32>
    ensures { result ≡ time_of word }
{
    if word == NO_TIME { None } else { Some(word) }
}

/// Returns the least time of an indicator DF402 from 0 to 15, in milliseconds.
fn least4(code: u8) -> u32
    requires { code ≤ last4 }
    ensures { result ≡ LockTimes.least4 code }
{
    if code == 0 { 0 } else { 1 << (code + 4) }
}

/// Writes an array of the least times of the indicators DF407, and `NO_TIME` for those without
/// one. The times of the first 64 are their numbers, and each later row of 32 has those of the row
/// before, doubled.
macro_rules! least_times {
    ([$($time:expr),*] [$($n:literal),*] $unit:literal $($units:literal)*) => {
        least_times![[$($time,)* $((32 + $n) * $unit),*] [$($n),*] $($units)*]
    };
    ([$($time:expr),*] [$($n:literal),*]) => {
        [$($time,)* 67_108_864, NO_TIME]
    };
}

/// The least time of each indicator DF407 from 0 to 704, in milliseconds, and `NO_TIME` for 705.
const LEAST7: [u32; 706] = least_times![
    [0, 1, 2, 3, 4, 5, 6, 7, 8, 9, 10, 11, 12, 13, 14, 15,
    16, 17, 18, 19, 20, 21, 22, 23, 24, 25, 26, 27, 28, 29, 30, 31]
    [0, 1, 2, 3, 4, 5, 6, 7, 8, 9, 10, 11, 12, 13, 14, 15,
    16, 17, 18, 19, 20, 21, 22, 23, 24, 25, 26, 27, 28, 29, 30, 31]
    1 2 4 8 16 32 64 128 256 512 1_024 2_048 4_096 8_192 16_384 32_768 65_536 131_072 262_144
    524_288 1_048_576
];

/// Returns the word of the least time of an indicator DF407 from 0 to 705.
fn least7(code: u16) -> u32
    requires { code ≤ last7 + 1 }
    ensures { time_of result ≡ (times7 code).least }
{
    LEAST7[code as usize]
}

impl Lock {
    /// Returns the lock of an indicator of MSM4 and MSM5 (RTCM 10403.3 DF402), 0 to 15.
    pub fn from_df402(code: u8) -> Lock
        requires { code ≤ last4 }
        ensures { result ≡ times4 code }
    {
        let is_last = code == LAST_DF402;
        Lock {
            least: least4(code),
            upper: if is_last { NO_TIME } else { least4(code + 1) },
        }
    }

    /// Returns the lock of an indicator of MSM6 and MSM7 (RTCM 10403.3 DF407), 0 to 1,023. From
    /// 705 on it is unknown.
    pub fn from_df407(code: u16) -> Lock
        requires { code < 2 ^ 10 }
        ensures { result ≡ times7 code }
    {
        if code > LAST_DF407 {
            return Lock::default();
        }
        Lock {
            least: least7(code),
            upper: least7(code + 1),
        }
    }

    /// Returns the least lock time in milliseconds, or `None` if the lock is unknown.
    pub fn least(self) -> Option<u32>
        ensures { result ≡ self.least }
    {
        time_of(self.least)
    }

    /// Returns the excluded upper bound of the lock time in milliseconds, or `None` if the lock is
    /// unknown or has no upper bound (DF402 15, DF407 704).
    pub fn upper(self) -> Option<u32>
        ensures { result ≡ self.upper }
    {
        time_of(self.upper)
    }
}

/// Returns whether lock was lost between two times that are `elapsed` milliseconds apart.
///
/// It was if the later lock has a smaller least time than the earlier one, or an upper bound that
/// is at most the elapsed time. If either lock is unknown, the result is `false`.
pub fn is_lost(then: Lock, now: Lock, elapsed: u64) -> bool
    ensures lost { IsTrue result ↔ IsLost then now elapsed }
    ensures value { result ≡ lost then.least now.least now.upper elapsed }
{
    let (Some(before), Some(least)) = (then.least(), now.least()) else {
        return false;
    };
    least < before || matches!(now.upper(), Some(upper) if upper as u64 <= elapsed)
}
