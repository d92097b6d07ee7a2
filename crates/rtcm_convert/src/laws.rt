//! Laws of the definitions that the contracts cite.
ghost use Rattle.rtcm_convert.specs.Laws.{WrittenStays, WrittenGrows, NothingYet, FiledStays, FiledGrows, NothingFiled};
ghost use Rattle.rtcm_convert.specs.Laws.{AreMessagesPlain, CountedOnce, IsFileOfEvery, IsFileText};
ghost use Rattle.std.specs.Prelude.{ℕ, ◌<◌, List};
ghost use Rattle.rtcm_scan.specs.Frames.{frames_of};
ghost use Rattle.rtcm_scan.specs.Decided.{decided_frames};
ghost use Rattle.rtcm_convert.specs.Converted.{so_far, file, epochs_in};
ghost use Rattle.rtcm_convert.specs.SetupValues.{setup_value};
ghost use Rattle.gnss_obs.specs.Values.{no_values};
ghost use Rattle.gnss_obs.specs.GatheredEpochs.{AreStationValues};
ghost use Rattle.rtcm_convert.specs.Readable.{FilesAreReadable, FilesHaveValues, SoFarIsReadable, IsReadable, HasValue};

use crate::setup::Setup;

/// What is written of some bytes is a prefix of the file, for every rest of the stream.
pub fn prefix()
    ensures file { WrittenStays }
    ensures grows { WrittenGrows }
    ensures nothing { NothingYet }
{
    filed();
    rtcm_scan::laws::prefix();
}

/// What is written of some frames is a prefix of what is written of these and more.
pub fn filed()
    ensures file { FiledStays }
    ensures grows { FiledGrows }
    ensures nothing { NothingFiled }
{
    obs_epoch::laws::closed_stay();
}

/// Each frame of a stream is counted once.
pub fn counts()
    ensures { CountedOnce }
{
    obs_epoch::laws::kinds();
}

/// What is written is the text of a file value: of the epochs in which a satellite has a value, in
/// order.
pub fn text()
    ensures { IsFileText }
{
    rinex_file::laws::file();
}

/// The choice of every epoch leaves none out of the file.
pub fn every_epoch()
    ensures { IsFileOfEvery }
{
    obs_epoch::laws::choices();
}

/// The file that frames make is empty or the text of a file value, and so is what is written of it
/// so far.
pub fn readable()
    ensures file { FilesAreReadable }
    ensures some { FilesHaveValues }
    ensures so_far { SoFarIsReadable }
    ensures zero { AreStationValues no_values }
{
    rtcm_msg::laws::message_sets();
    obs_epoch::laws::gathered();
    obs_epoch::laws::closed_stay();
    rinex_file::laws::values();
    text();
}

/// For every setup and stream: what is written is empty or the text of a file value, which
/// [`read_file`](rinex_file::read_file) reads as that value.
pub fn read_back(setup: &Setup)
    ensures file { AreStationValues setup.now.gatherer.initial → (b : List ℕ)
        → IsReadable (file (setup_value setup.now) (frames_of b)) }
    ensures some { AreStationValues setup.now.gatherer.initial → (b : List ℕ)
        → 0 < epochs_in (setup_value setup.now) (frames_of b)
        → HasValue (file (setup_value setup.now) (frames_of b)) }
    ensures so_far { AreStationValues setup.now.gatherer.initial → (b : List ℕ)
        → IsReadable (so_far (setup_value setup.now) (decided_frames b)) }
    ensures zero { AreStationValues no_values }
{
    readable();
    rinex_file::laws::head(&setup.texts, &setup.gatherer.plan);
    // Brings the range of the interval into the proof.
    let _ = setup.gatherer.choice.interval_milliseconds();
}

/// A conversion of GPS and Galileo alone, in MSM4 and MSM7, reads exactly the messages 1005, 1006,
/// 1074, 1077, 1094 and 1097, regardless of channels and leap seconds.
pub fn two_systems()
    ensures { AreMessagesPlain }
{
    obs_epoch::laws::two_systems();
}
