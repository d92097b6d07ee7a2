//! The stream of a station, as a reader.
use crate::random::Random;
use crate::template::{Shape, Template};
use std::alloc::{AllocError, Global};
use std::io;
use std::io::Read;

/// Number of milliseconds of a week.
const WEEK: u64 = 604_800_000;

/// Number of templates. An epoch has those of the epoch before the last `TEMPLATES`, with another
/// time and other values.
const TEMPLATES: u64 = 20;

/// Signal masks, DF395: 1C, 2L, 5Q of GPS, and 1C, 6C, 7Q, 5Q of Galileo.
const GPS_SIGNALS: u64 = 1 << 30 | 1 << 16 | 1 << 9;

const GALILEO_SIGNALS: u64 = 1 << 30 | 1 << 24 | 1 << 17 | 1 << 9;

/// Signal masks of GPS in groups of two, and one of ten signals of Galileo.
const GPS_GROUPS: [u64; 4] = [0x5000_0000, 0x0140_0000, 0x0003_0000, 0x0000_0600];

const TEN_SIGNALS: u64 = 0x7DF0_0000;

/// What a station sends.
#[derive(Clone, Copy)]
pub enum Kind {
    /// MSM7 of GPS and Galileo, and a 1005 every ten epochs.
    Plain,
    /// The same as MSM4.
    Short,
    /// MSM7 of four systems, ephemerides, and messages and bytes in the receiver's own formats.
    Mixed,
    /// Many satellites and signals. An epoch is in several messages: of GPS one for each group of
    /// signals, of Galileo with falling satellites.
    Unordered,
}

/// The stream of a station, once a second.
#[derive(Drop)]
pub struct Stream {
    templates: Vec<Template>,
    random: Random,
    /// Milliseconds since the begin of the first week.
    time: u64,
    epoch: u64,
    epochs: u64,
    /// One in so many frames has a wrong bit; none for 0.
    damaged: u64,
    block: Vec<u8>,
    place: usize,
}

/// Returns a mask of `count` satellites with IDs up to `most`: DF394.
fn satellites(random: &mut Random, count: u32, most: u64) -> u64 {
    let mut mask: u64 = 0;
    for _ in 0..10_000 {
        if mask.count_ones() >= count {
            return mask;
        }
        mask |= (1u64 << 63).wrapping_shr((random.below(most) % 64) as u32);
    }
    mask
}

/// Returns the `count` last satellites of a mask, those with the highest IDs.
fn last_of(mask: u64, count: u32) -> u64 {
    let mut rest = mask;
    for _ in 0..count {
        rest &= rest.wrapping_sub(1);
    }
    mask & !rest
}

/// The satellites of a stream.
#[derive(Clone, Copy)]
struct Sky {
    gps: u64,
    galileo: u64,
    glonass: u64,
    beidou: u64,
}

fn msm(number: u64, more: bool, satellites: u64, signals: u64) -> Shape {
    Shape {
        number,
        more,
        satellites,
        signals,
    }
}

/// Adds the messages of an epoch in several messages.
fn add_unordered(made: &mut Template, random: &mut Random, sky: Sky) -> Result<(), AllocError> {
    for signals in GPS_GROUPS {
        made.add_msm(msm(1077, true, sky.gps, signals), random)?;
    }
    let mut rest = sky.galileo;
    for _ in 0..64 {
        if rest == 0 {
            break;
        }
        let own = last_of(rest, 4);
        rest = rest & !own;
        made.add_msm(msm(1097, rest != 0, own, TEN_SIGNALS), random)?;
    }
    Ok(())
}

/// Adds the messages of an epoch.
fn add_messages(
    made: &mut Template,
    random: &mut Random,
    kind: Kind,
    sky: Sky,
    index: u64,
) -> Result<(), AllocError> {
    match kind {
        Kind::Plain => {
            made.add_msm(msm(1077, true, sky.gps, GPS_SIGNALS), random)?;
            made.add_msm(msm(1097, false, sky.galileo, GALILEO_SIGNALS), random)
        }
        Kind::Short => {
            made.add_msm(msm(1074, true, sky.gps, GPS_SIGNALS), random)?;
            made.add_msm(msm(1094, false, sky.galileo, GALILEO_SIGNALS), random)
        }
        Kind::Mixed => {
            made.add_bytes(80, random)?;
            made.add_msm(msm(1077, true, sky.gps, GPS_SIGNALS), random)?;
            made.add_msm(msm(1087, true, sky.glonass, 0x4100_0000), random)?;
            made.add_msm(msm(1097, true, sky.galileo, GALILEO_SIGNALS), random)?;
            made.add_msm(msm(1127, false, sky.beidou, 0x4202_0000), random)?;
            match index % 4 {
                0 => made.add_other(1019, 61, random),
                1 => made.add_other(1042, 64, random),
                2 => made.add_other(1046, 63, random),
                _ => made.add_other(4072, 100, random),
            }
        }
        Kind::Unordered => add_unordered(made, random, sky),
    }
}

impl Stream {
    /// Returns a stream of this many epochs.
    pub fn new(
        alloc: Global,
        kind: Kind,
        seed: u64,
        epochs: u64,
        damaged: u64,
    ) -> Result<Stream, AllocError> {
        let mut random = Random::new(seed);
        let many = matches!(kind, Kind::Unordered);
        let sky = Sky {
            gps: satellites(&mut random, if many { 24 } else { 12 }, 32),
            galileo: satellites(&mut random, if many { 16 } else { 10 }, 36),
            glonass: satellites(&mut random, 8, 24),
            beidou: satellites(&mut random, 14, 60),
        };
        let position = random.below(1 << 30);
        let mut templates = Vec::new(alloc);
        for index in 0..TEMPLATES {
            let mut made = Template {
                bytes: Vec::new(alloc),
                spots: Vec::new(alloc),
            };
            if index % 10 == 0 {
                made.add_station(position)?;
            }
            add_messages(&mut made, &mut random, kind, sky, index)?;
            templates.push(made)?;
        }
        let time = random.below(600_000).wrapping_mul(1000);
        Ok(Stream {
            templates,
            random,
            time,
            epoch: 0,
            epochs,
            damaged,
            block: Vec::new(alloc),
            place: 0,
        })
    }

    /// Returns the time of the next epoch, in milliseconds of the first week.
    pub fn time(&self) -> u64 {
        self.time
    }

    /// Makes the next epoch. Returns whether there is one.
    fn make_next(&mut self) -> Result<bool, AllocError> {
        if self.epoch >= self.epochs {
            return Ok(false);
        }
        self.block.clear();
        self.place = 0;
        let index = (self.epoch % TEMPLATES) as usize;
        if let Some(made) = self.templates.as_mut_slice().get_mut(index) {
            made.set(self.time % WEEK, &mut self.random);
            made.append(&mut self.block, self.damaged, &mut self.random)?;
        }
        self.epoch = self.epoch.wrapping_add(1);
        self.time = self.time.wrapping_add(1000);
        Ok(true)
    }
}

impl Read for Stream {
    fn read(&mut self, buf: &mut [u8]) -> io::Result<usize> {
        if self.place >= self.block.len() && !self.make_next()? {
            return Ok(0);
        }
        let Some(rest) = self.block.as_slice().get(self.place..) else {
            return Ok(0);
        };
        let n = buf.len().min(rest.len());
        buf[..n].copy_from_slice(&rest[..n]);
        self.place = self.place.wrapping_add(n);
        Ok(n)
    }
}
