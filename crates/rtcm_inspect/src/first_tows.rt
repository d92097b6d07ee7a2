//! The times of week of the first MSMs of a stream, and the times counted along it.
ghost use Rattle.std.specs.Prelude.{◌≡◌, ◌*◌, ◌<◌, ◌^◌, ◌∷◌, ◌++◌, [], ℕ, List, Option, Some, Ok, IfSome, false, true};
ghost use Rattle.std.specs.Prelude.{length, option_map};
ghost use Rattle.std.specs.Option.{option_or};
ghost use Rattle.gnss_system.specs.Systems.{systems};
ghost use Rattle.rtcm_msg.specs.Decoding.{message_at};
ghost use Rattle.rtcm_msg.specs.declared.message.Message.TheVariants as messages;
ghost use Rattle.rtcm_msg.specs.declared.number.Forms.{Forms};
ghost use Rattle.rtcm_scan.specs.Frames.{Framed};
ghost use Rattle.obs_epoch.specs.SignalCounts.{is_of_station};
ghost use Rattle.obs_epoch.specs.Times.{ahead};
ghost use Rattle.gnss_obs.specs.Weeks.{week, weeks};
ghost use Rattle.rtcm_inspect.specs.Inspected.{inspected};
ghost use Rattle.rtcm_inspect.specs.inner.FirstTows.{AreTows, CountsTow, IsWith, KeepsFirst, SetsGreatest};
ghost use Rattle.rtcm_inspect.specs.inner.FirstTows.{earlier_of, earliest, first_of_system, greatest_among, later_by};
ghost use Rattle.rtcm_inspect.specs.inner.FirstTows.{tow_by, tow_in, tows_with_greatest, with_greatest};
ghost use Rattle.rtcm_inspect.specs.CountedTimes.{with_tow};

use gnss_obs::{GpsTime, WEEK};
use gnss_system::{BySystem, SYSTEMS, System};
use obs_epoch::tow_of;
use rtcm_msg::{Form, Forms, MsmSet, MsmView};

/// The time of week of an MSM in milliseconds, and what is before it.
#[derive(Clone, Copy)]
pub struct MsmTow {
    /// The number of MSMs of the wanted station before it.
    pub msms_before: u64,
    /// The system.
    pub system: System,
    /// The time of week, if GPS time were UTC.
    pub tow: u32,
    /// The greatest time at the first MSM that is counted from this one on, if there is one, in
    /// milliseconds.
    pub greatest: Option<u64>,
}

/// The first MSMs of a system.
#[derive(Clone, Copy, Default)]
pub struct SystemTows {
    /// The first MSM4 or MSM7.
    pub four_and_seven: Option<MsmTow>,
    /// The first one of any form.
    pub all: Option<MsmTow>,
}

/// The first MSMs of each system.
#[derive(Clone, Copy)]
pub struct FirstTows {
    /// The number of MSMs of the wanted station.
    pub msms: u64,
    /// The first MSMs.
    pub tows: BySystem<SystemTows>,
    /// The greatest time of the MSMs that are counted: those of every system but GLONASS.
    pub greatest: Option<GpsTime>,
    /// Whether a first MSM may lack its greatest time.
    pub may_lack_greatest: bool,
}

impl SystemTows {
    /// Returns the first one in these forms.
    fn of(self, forms: Forms) -> Option<MsmTow>
        ensures { result ≡ tow_in forms self }
    {
        match forms {
            Forms::FourAndSeven => self.four_and_seven,
            Forms::All => self.all,
        }
    }

    /// Adds one more MSM of this form, and returns whether it is a first one.
    fn add(&mut self, form: Form, tow: MsmTow) -> bool
        ensures with { (forms : Forms) → IsWith self.old form tow self.new forms }
        ensures same { result ≡ false → self.new ≡ self.old }
    {
        let of_all = self.all.is_none();
        if of_all {
            self.all = Some(tow);
        }
        let of_some = self.four_and_seven.is_none() && Forms::FourAndSeven.have(form);
        if of_some {
            self.four_and_seven = Some(tow);
        }
        of_all || of_some
    }

    /// Returns them with this greatest time, if they have none.
    fn with_greatest(&self, time: u64) -> SystemTows
        ensures { result ≡ tows_with_greatest time self.now }
    {
        SystemTows {
            four_and_seven: tow_with_greatest(self.four_and_seven, time),
            all: tow_with_greatest(self.all, time),
        }
    }
}

impl FirstTows {
    /// Returns what is known before the first message.
    pub fn new() -> FirstTows
        ensures { (wanted : Option ℕ) → AreTows result wanted [] }
    {
        FirstTows {
            msms: 0,
            tows: BySystem::each(|_| SystemTows::default()),
            greatest: None,
            may_lack_greatest: false,
        }
    }

    /// Adds one more MSM.
    pub fn add(&mut self, msm: &MsmView<'_>)
        ensures { (wanted : Option ℕ) (fs : List Framed) (f : Framed) → message_at f.message ≡ Ok (messages.Msm msm.now)
            → is_of_station wanted (inspected (messages.Msm msm.now)) ≡ true → length fs < 2 ^ 56
            → AreTows self.old wanted fs → AreTows self.new wanted (fs ++ f ∷ []) }
    {
        let system = msm.system();
        let tow = tow_of(system, 0, msm.header().time);
        let msms_before = self.msms;
        // No stream has 2^64 messages.
        self.msms = self.msms.wrapping_add(1);
        self.keep_first(
            msm.form(),
            MsmTow {
                msms_before,
                system,
                tow,
                greatest: None,
            },
        );
        match system {
            System::Glonass => {}
            _ => self.count(tow),
        }
    }

    /// Keeps an MSM of this form if it is a first one.
    fn keep_first(&mut self, form: Form, tow: MsmTow)
        ensures { KeepsFirst self.old form tow self.new }
    {
        if self.tows.of_mut(tow.system).add(form, tow) {
            self.may_lack_greatest = true;
        }
    }

    /// Counts the time of an MSM.
    fn count(&mut self, tow: u32)
        ensures { CountsTow self.old tow self.new }
    {
        let time = greatest_with(self.greatest, tow);
        self.greatest = Some(time);
        if self.may_lack_greatest {
            self.set_greatest(time.milliseconds());
        }
    }

    /// Gives this greatest time to the first MSMs that have none.
    // Inlined, it would take 40 instructions of each piece of a stream.
    #[inline(never)]
    fn set_greatest(&mut self, time: u64)
        ensures { SetsGreatest self.old time self.new }
    {
        let tows = self.tows;
        self.tows = BySystem::each(|system| tows.of(system).with_greatest(time));
        self.may_lack_greatest = false;
    }

    /// Returns the time of week of the first MSM of a set, with these leap seconds.
    pub fn first_tow(&self, set: &MsmSet, leap: u8) -> Option<u32>
        ensures { result ≡ option_map (tow_by leap) (earliest set.now self.now.tows systems) }
    {
        let first = self.earliest(set)?;
        Some(later_by(first.system, leap, first.tow))
    }

    /// Returns the greatest time at the first MSM of a set.
    pub fn greatest_at_first(&self, set: &MsmSet) -> Option<GpsTime>
        ensures { IfSome (greatest_among set.now self.now.tows) (λ t. t < weeks * week)
            → result ≡ option_or (greatest_among set.now self.now.tows) self.now.greatest }
    {
        match self.earliest(set).and_then(|first| first.greatest) {
            Some(time) => GpsTime::new(time),
            None => self.greatest,
        }
    }

    /// Returns the first MSM of a set.
    fn earliest(&self, set: &MsmSet) -> Option<MsmTow>
        ensures { result ≡ earliest set.now self.now.tows systems }
    {
        let mut first = None;
        let mut i = SYSTEMS.len();
        while i > 0 {
            i -= 1;
            first = earlier_of(self.first_of_system(set, System::at(i)), first);
        }
        first
    }

    /// Returns the first MSM of a system, if it is in a set.
    fn first_of_system(&self, set: &MsmSet, system: System) -> Option<MsmTow>
        ensures { result ≡ first_of_system set.now self.now.tows system }
    {
        if *set.systems.of(system) {
            self.tows.of(system).of(set.forms)
        } else {
            None
        }
    }
}

/// Returns a first MSM with this greatest time, if it has none.
fn tow_with_greatest(tow: Option<MsmTow>, time: u64) -> Option<MsmTow>
    ensures { result ≡ option_map (with_greatest time) tow }
{
    let tow = tow?;
    Some(MsmTow {
        greatest: tow.greatest.or(Some(time)),
        ..tow
    })
}

/// Returns the greatest time after one more time of week.
fn greatest_with(greatest: Option<GpsTime>, tow: u32) -> GpsTime
    ensures { Some result ≡ with_tow greatest tow }
{
    let Some(time) = greatest else {
        return GpsTime::within(u64::from(tow));
    };
    // As for most messages, which have the time of the one before them.
    if time.milliseconds() % WEEK == u64::from(tow) {
        return time;
    }
    let ahead = ahead(time.milliseconds(), tow);
    if ahead > WEEK / 2 {
        return time;
    }
    GpsTime::new(time.milliseconds() + ahead).unwrap_or(time)
}

/// Returns the milliseconds from a time to the next one with this time of week.
#[inline(always)]
pub fn ahead(time: u64, tow: u32) -> u64
    ensures { result ≡ ahead time tow }
{
    (u64::from(tow) + (WEEK - time % WEEK)) % WEEK
}

/// Returns the time of week of a system with these leap seconds, of which only that of GLONASS
/// depends on them.
fn later_by(system: System, leap: u8, tow: u32) -> u32
    ensures { result ≡ later_by system leap tow }
{
    match system {
        System::Glonass => ((u64::from(tow) + 1_000 * u64::from(leap)) % WEEK) as u32,
        _ => tow,
    }
}

/// Returns the earlier one of two.
fn earlier_of(a: Option<MsmTow>, b: Option<MsmTow>) -> Option<MsmTow>
    ensures { result ≡ earlier_of a b }
{
    match (a, b) {
        (None, b) => b,
        (Some(x), Some(y)) if y.msms_before < x.msms_before => Some(y),
        (Some(x), _) => Some(x),
    }
}
