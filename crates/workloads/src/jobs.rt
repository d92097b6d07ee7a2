//! The jobs, each of which adds its results to a digest.
ghost use Rattle.std.specs.Prelude.{◌≡◌, length};

use crate::digest::Digest;
use crate::hostile::Hostile;
use crate::random::Random;
use crate::signals::Signals;
use crate::stream::{Kind, Stream};
use crate::text::Text;
use devices::{Buffered, Counted, Deliver};
use gnss_obs::Plan;
use obs_epoch::Gather;
use rinex_file::{HeaderTexts, Texts, check_file};
use rtcm_convert::{Converter, Kept, Report, Setup};
use rtcm_scan::{Framer, MOST_BYTES, StreamFault};
use std::alloc::Global;
use std::convert::Infallible;
use std::io::{BufReader, Read};

/// Capacity of the buffer of the input, and the largest piece of a listing, in bytes.
const INPUT_BYTES: usize = 65_536;

/// GPS week of the first observations.
const WEEK: u32 = 2300;

/// The plan of the signals that the plain streams have.
const PLAN: [&str; 2] = ["1C,2L,5Q", "1C,6C,7Q,5Q"];

/// The plan of all signals.
const ALL: [&str; 2] = ["all", "all"];

fn setup(alloc: Global, plan: [&str; 2], gather: Gather) -> Option<Setup> {
    let texts = Texts {
        run_by: "bench",
        date: "20240204 000001 UTC",
        marker: "MADE",
        marker_number: "",
        comment: "",
        marker_type: "GEODETIC",
        observer: "",
        agency: "",
        rec_number: "1",
        rec_type: "",
        rec_version: "",
        ant_number: "",
        ant_type: "",
    };
    let texts = HeaderTexts::new(&texts).ok()?;
    let Ok(plan) = Plan::parse(alloc, plan[0], plan[1]) else {
        drop(texts);
        return None;
    };
    let mut setup = Setup::new(plan, texts, WEEK);
    setup.gatherer.gather = gather;
    Some(setup)
}

fn add_report(digest: &mut Digest, report: &Report, kept: Kept) {
    digest.add(report.bytes);
    digest.add(report.skipped_bytes);
    digest.add(report.frames);
    digest.add(report.faulty);
    digest.add(report.station);
    digest.add(report.ignored);
    digest.add(report.late);
    digest.add(report.taken);
    digest.add(report.skipped);
    digest.add(report.repeated);
    digest.add(report.crowded);
    digest.add(report.epochs);
    digest.add(kept.locks as u64);
    digest.add(kept.examined);
    digest.add(kept.most as u64);
}

/// Converts a stream as the command `convert` does, and returns the writer with its file.
fn converted<R: Read + Drop, W: Deliver + Drop>(
    alloc: Global,
    setup: Setup,
    stream: R,
    writer: &mut Counted<Buffered<W>>,
) -> Option<(Report, Kept)> {
    let Ok(input) = BufReader::with_capacity(alloc, INPUT_BYTES, stream) else {
        drop(setup);
        return None;
    };
    let mut reader = Counted::new(input);
    let Ok(mut converter) = Converter::new(alloc, setup) else {
        drop(reader);
        return None;
    };
    let ran = converter.run(&mut reader, writer);
    let kept = converter.kept();
    drop(converter);
    drop(reader);
    Some((ran.ok()?, kept))
}

/// Converts a stream and adds its file and report to the digest.
fn convert(alloc: Global, setup: Setup, stream: Stream, digest: Digest) -> Option<Digest> {
    let mut writer = Counted::new(Buffered::new(alloc, digest).ok()?);
    let (report, kept) = converted(alloc, setup, stream, &mut writer)?;
    let mut digest = writer.into_inner().into_inner();
    add_report(&mut digest, &report, kept);
    Some(digest)
}

/// Converts a stream of MSM7 with the plan that fits it.
pub fn bulk(alloc: Global, seed: u64, amount: u64, digest: Digest) -> Option<Digest> {
    let setup = setup(alloc, PLAN, Gather::Bit)?;
    let Ok(stream) = Stream::new(alloc, Kind::Plain, seed, amount.saturating_mul(1000), 0) else {
        drop(setup);
        return None;
    };
    convert(alloc, setup, stream, digest)
}

/// Converts a stream whose epochs are in several messages, with all signals.
pub fn unordered(alloc: Global, seed: u64, amount: u64, digest: Digest) -> Option<Digest> {
    let setup = setup(alloc, ALL, Gather::Time)?;
    let Ok(stream) = Stream::new(alloc, Kind::Unordered, seed, amount.saturating_mul(100), 0) else {
        drop(setup);
        return None;
    };
    convert(alloc, setup, stream, digest)
}

/// Converts a live stream of a receiver with four systems, with all signals, from pieces of 1 to
/// 1,400 bytes.
pub fn live(alloc: Global, seed: u64, amount: u64, digest: Digest) -> Option<Digest> {
    let setup = setup(alloc, ALL, Gather::Bit)?;
    let Ok(mut stream) = Stream::new(alloc, Kind::Mixed, seed, amount.saturating_mul(1000), 0)
    else {
        drop(setup);
        return None;
    };
    let Ok(buffered) = Buffered::new(alloc, digest) else {
        drop(stream);
        drop(setup);
        return None;
    };
    let mut writer = Counted::new(buffered);
    let Ok(mut converter) = Converter::new(alloc, setup) else {
        drop(writer);
        drop(stream);
        return None;
    };
    let mut random = Random::new(seed ^ 77);
    let report = feed_all(&mut converter, &mut stream, &mut random, &mut writer);
    let kept = converter.kept();
    drop(converter);
    drop(stream);
    let mut digest = writer.into_inner().into_inner();
    add_report(&mut digest, &report?, kept);
    Some(digest)
}

/// Feeds a stream to a converter in pieces of 1 to 1,400 bytes.
fn feed_all(
    converter: &mut Converter,
    stream: &mut Stream,
    random: &mut Random,
    writer: &mut Counted<Buffered<Digest>>,
) -> Option<Report> {
    let mut buffer = [0u8; 1400];
    for _ in 0..u64::MAX {
        let piece = next_piece(stream, random, &mut buffer)?;
        if piece.is_empty() {
            break;
        }
        converter.feed(piece, writer).ok()?;
    }
    converter.finish(writer).ok()
}

/// Reads a piece of 1 to 1,400 bytes, less at the end of the stream and none after it.
fn next_piece<'a>(
    stream: &mut Stream,
    random: &mut Random,
    buffer: &'a mut [u8],
) -> Option<&'a [u8]>
    requires { length buffer.old ≡ 1400 }
{
    let most = (random.below(1400) % 1400) as usize + 1;
    let n = stream.read(&mut buffer[..most]).ok()?;
    Some(&buffer[..n])
}

/// Reads a file back as the command `check` does.
pub fn check(alloc: Global, seed: u64, amount: u64, digest: Digest) -> Option<Digest> {
    let setup = setup(alloc, PLAN, Gather::Bit)?;
    let Ok(stream) = Stream::new(alloc, Kind::Plain, seed, 60, 0) else {
        drop(setup);
        return None;
    };
    let time = u64::from(WEEK) * 604_800_000 + stream.time() % 604_800_000;
    let mut writer = Counted::new(Buffered::new(alloc, Vec::new(alloc)).ok()?);
    let _ = converted(alloc, setup, stream, &mut writer)?;
    let file = writer.into_inner().into_inner();
    let epochs = amount.saturating_mul(1000);
    let text = Text::new(alloc, file.as_slice(), time, seed, epochs).ok()?;
    let input = BufReader::with_capacity(alloc, INPUT_BYTES, text).ok()?;
    let counts = check_file(alloc, &mut Counted::new(input)).ok()?;
    let mut digest = digest;
    digest.add(counts.epochs);
    digest.add(counts.satellites);
    digest.add(counts.events);
    Some(digest)
}

/// Finds the frames and signals of a stream, as the commands `signals`, `options` and `frames` do.
pub fn signals(alloc: Global, seed: u64, amount: u64, digest: Digest) -> Option<Digest> {
    let stream = Stream::new(alloc, Kind::Mixed, seed, amount.saturating_mul(1000), 0).ok()?;
    counted(alloc, stream, digest)
}

/// Adds the frames and signals of a stream, and the looks at its bytes, to the digest.
fn counted<R: Read + Drop>(alloc: Global, stream: R, digest: Digest) -> Option<Digest> {
    let input = BufReader::with_capacity(alloc, INPUT_BYTES, stream).ok()?;
    let mut framer = Framer::new(alloc, MOST_BYTES).ok()?;
    let mut signals = Signals::new();
    let mut buffer = [0u8; INPUT_BYTES];
    let mut reader = Counted::new(input);
    let read = framer.read_frames(&mut reader, &mut buffer, &mut signals, &mut ());
    if !is_done(read) {
        return None;
    }
    let mut digest = digest;
    signals.add_to(&mut digest);
    digest.add(framer.taken());
    digest.add(framer.skipped());
    digest.add(framer.examined());
    digest.add(framer.most() as u64);
    Some(digest)
}

/// Returns whether the frames were found to the end.
fn is_done(found: Result<(), StreamFault<Infallible>>) -> bool {
    match found {
        Ok(()) => true,
        Err(StreamFault::Read | StreamFault::TooLong) => false,
        Err(StreamFault::Sink(never)) => match never {},
    }
}

/// Converts a stream of MSM4 with one frame in five damaged, and finds the frames of noise and of
/// bytes that begin many frames.
pub fn corrupted(alloc: Global, seed: u64, amount: u64, digest: Digest) -> Option<Digest> {
    let setup = setup(alloc, PLAN, Gather::Bit)?;
    let Ok(stream) = Stream::new(alloc, Kind::Short, seed, amount.saturating_mul(1000), 5) else {
        drop(setup);
        return None;
    };
    let digest = convert(alloc, setup, stream, digest)?;
    counted(alloc, Hostile::new(alloc, seed, amount), digest)
}
