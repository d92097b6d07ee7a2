//! Templates of epochs: the frames of a station, whose times and values are set anew each time.
use crate::random::Random;
use rtcm_bits::crc24q;
use std::alloc::AllocError;

/// First byte of every frame.
const PREAMBLE: u8 = 0xD3;

/// The station of all messages, DF003.
const STATION: u64 = 2003;

/// Bit of a message at which its epoch time is, and its width (DF004, DF248).
const TIME_PLACE: usize = 24;

const TIME_WIDTH: u32 = 30;

/// A message with observations (MSM): its number, DF393, and its satellites and signals as masks
/// (DF394, DF395).
#[derive(Clone, Copy)]
pub struct Shape {
    pub number: u64,
    pub more: bool,
    pub satellites: u64,
    pub signals: u64,
}

impl Shape {
    /// Returns whether the message is an MSM7; otherwise it is an MSM4.
    fn is_long(self) -> bool {
        self.number % 10 == 7
    }
}

/// A range of bytes.
#[derive(Clone, Copy)]
struct Range {
    from: usize,
    to: usize,
}

/// What is set anew in an epoch: the time of a message, bytes of random values, and the CRC.
#[derive(Clone, Copy)]
pub struct Spot {
    /// The bytes of the frame, or of other bytes between frames.
    bytes: Range,
    is_frame: bool,
    is_timed: bool,
    random: [Range; 2],
}

/// The frames of an epoch.
#[derive(Drop)]
pub struct Template {
    pub bytes: Vec<u8>,
    pub spots: Vec<Spot>,
}

/// Sets the field of `width` bits at bit `at`, most significant bit first. Bits after the end of
/// the bytes are left out.
fn put(bytes: &mut [u8], at: usize, width: u32, value: u64) {
    for k in 0..width {
        let place = at.wrapping_add(k as usize);
        let bit = value.wrapping_shr(width.wrapping_sub(k).wrapping_sub(1)) & 1;
        let mask = 0x80u8.wrapping_shr((place % 8) as u32);
        if let Some(byte) = bytes.get_mut(place / 8) {
            *byte = if bit == 1 {
                *byte | mask
            } else {
                *byte & !mask
            };
        }
    }
}

/// Fields that are written one after the other.
#[derive(Drop)]
struct Fields<'a> {
    bytes: &'a mut [u8],
    at: usize,
}

impl<'a> Fields<'a> {
    fn put(&mut self, width: u32, value: u64) {
        put(self.bytes, self.at, width, value);
        self.at = self.at.wrapping_add(width as usize);
    }

    /// Puts a field of each of `count` satellites or cells, below `bound` more than `least`.
    fn put_column(&mut self, count: u64, width: u32, random: &mut Random, least: u64, bound: u64) {
        for _ in 0..count {
            self.put(width, least.wrapping_add(random.below(bound)));
        }
    }
}

impl Template {
    /// Appends a frame of a message of `length` bytes, all 0, and returns the place of the message.
    fn add_frame(&mut self, length: usize) -> Result<usize, AllocError> {
        let length = length.min(1023);
        self.bytes.push(PREAMBLE)?;
        self.bytes.push((length / 256) as u8)?;
        self.bytes.push((length % 256) as u8)?;
        let place = self.bytes.len();
        let end = place.saturating_add(length).saturating_add(3);
        self.bytes.resize(end, 0)?;
        Ok(place)
    }

    /// Appends the frame of a message with observations. One in sixteen cells is missing, and one
    /// in 256 has a shorter lock time than in other epochs.
    pub fn add_msm(&mut self, shape: Shape, random: &mut Random) -> Result<(), AllocError> {
        let satellites = shape.satellites.count_ones() as u64;
        let pairs = satellites
            .wrapping_mul(shape.signals.count_ones() as u64)
            .min(64);
        let mut mask = 0;
        for _ in 0..pairs {
            mask = (mask << 1) | u64::from(random.below(16) > 0);
        }
        let cells = mask.count_ones() as u64;
        let (each, every) = if shape.is_long() { (36, 80) } else { (18, 48) };
        let bits = 169 + pairs + each * satellites + every * cells;
        let place = self.add_frame(bits.div_ceil(8) as usize)?;
        let start = place.saturating_sub(3);
        let Some(bytes) = self.bytes.as_mut_slice().get_mut(place..) else {
            return Ok(());
        };
        put(bytes, 0, 12, shape.number);
        put(bytes, 12, 12, STATION);
        put(bytes, 54, 1, u64::from(shape.more));
        put(bytes, 73, 64, shape.satellites);
        put(bytes, 137, 32, shape.signals);
        put(bytes, 169, pairs as u32, mask);
        let mut fields = Fields {
            bytes,
            at: 169 + pairs as usize,
        };
        let random = if shape.is_long() {
            put_long(&mut fields, satellites, cells, random)
        } else {
            put_short(&mut fields, satellites, cells, random)
        };
        let end = self.bytes.len();
        self.spots.push(Spot {
            bytes: Range {
                from: start,
                to: end,
            },
            is_frame: true,
            is_timed: true,
            random: [moved(random[0], place), moved(random[1], place)],
        })?;
        Ok(())
    }

    /// Appends the frame of a message of another kind, of random bytes after its number.
    pub fn add_other(
        &mut self,
        number: u64,
        length: usize,
        random: &mut Random,
    ) -> Result<(), AllocError> {
        let place = self.add_frame(length)?;
        let start = place.saturating_sub(3);
        if let Some(bytes) = self.bytes.as_mut_slice().get_mut(place..) {
            put(bytes, 0, 12, number);
            put(bytes, 12, 12, STATION);
        }
        self.add_random(start, place.saturating_add(3), true, random)
    }

    /// Appends bytes between frames: the binary format of a receiver.
    pub fn add_bytes(&mut self, length: usize, random: &mut Random) -> Result<(), AllocError> {
        let start = self.bytes.len();
        self.bytes.push(0xB5)?;
        self.bytes.push(0x62)?;
        self.bytes.resize(start.saturating_add(length), 0)?;
        self.add_random(start, start.saturating_add(2), false, random)
    }

    /// Appends a spot of random bytes from a place up to the end, less the CRC of a frame.
    fn add_random(
        &mut self,
        start: usize,
        place: usize,
        is_frame: bool,
        random: &mut Random,
    ) -> Result<(), AllocError> {
        let end = self.bytes.len();
        let to = if is_frame { end.saturating_sub(3) } else { end };
        let range = Range { from: place, to };
        fill(self.bytes.as_mut_slice(), range, random);
        self.spots.push(Spot {
            bytes: Range {
                from: start,
                to: end,
            },
            is_frame,
            is_timed: false,
            random: [range, Range { from: 0, to: 0 }],
        })?;
        Ok(())
    }

    /// Appends the frame of message 1005 with a position.
    pub fn add_station(&mut self, position: u64) -> Result<(), AllocError> {
        let place = self.add_frame(19)?;
        let start = place.saturating_sub(3);
        if let Some(bytes) = self.bytes.as_mut_slice().get_mut(place..) {
            put(bytes, 0, 12, 1005);
            put(bytes, 12, 12, STATION);
            put(bytes, 34, 38, 40_278_817_000);
            put(bytes, 74, 38, position);
            put(bytes, 114, 38, 49_199_122_000);
        }
        let end = self.bytes.len();
        let none = Range { from: 0, to: 0 };
        self.spots.push(Spot {
            bytes: Range {
                from: start,
                to: end,
            },
            is_frame: true,
            is_timed: false,
            random: [none, none],
        })?;
        Ok(())
    }

    /// Sets the time of the messages, in milliseconds of the week, other values, and the CRCs.
    pub fn set(&mut self, time: u64, random: &mut Random) {
        let bytes = self.bytes.as_mut_slice();
        for spot in &self.spots {
            set_spot(bytes, *spot, time, random);
        }
    }

    /// Appends the bytes of the epoch to a block. One in `damaged` frames has a wrong bit, none
    /// for 0.
    pub fn append(
        &self,
        block: &mut Vec<u8>,
        damaged: u64,
        random: &mut Random,
    ) -> Result<(), AllocError> {
        let start = block.len();
        block.extend_from_slice(self.bytes.as_slice())?;
        if damaged == 0 {
            return Ok(());
        }
        for spot in &self.spots {
            if random.below(damaged) == 0 {
                let length = spot.bytes.to.saturating_sub(spot.bytes.from) as u64;
                let place = start
                    .wrapping_add(spot.bytes.from)
                    .wrapping_add(random.below(length) as usize);
                if let Some(byte) = block.as_mut_slice().get_mut(place) {
                    *byte ^= 1u8.wrapping_shl((random.bits() % 8) as u32);
                }
            }
        }
        Ok(())
    }
}

/// Puts the satellites and cells of an MSM7, and returns the bytes of the ranges and phases, and of
/// the rates, which take any values.
fn put_long(
    fields: &mut Fields<'_>,
    satellites: u64,
    cells: u64,
    random: &mut Random,
) -> [Range; 2] {
    fields.put_column(satellites, 8, random, 67, 20);
    fields.put_column(satellites, 4, random, 0, 1);
    fields.put_column(satellites, 10, random, 0, 1024);
    for _ in 0..satellites {
        fields.put(14, random.below(1600).wrapping_sub(800));
    }
    let values = fields.at;
    fields.put_column(cells, 20, random, 0, 1 << 20);
    fields.put_column(cells, 24, random, 0, 1 << 24);
    let locks = fields.at;
    put_locks(fields, cells, 10, 400, random);
    fields.put_column(cells, 1, random, 0, 1);
    fields.put_column(cells, 10, random, 560, 256);
    let last = fields.at;
    fields.put_column(cells, 15, random, 0, 1 << 15);
    [whole_bytes(values, locks), whole_bytes(last, fields.at)]
}

/// Puts the satellites and cells of an MSM4, and returns the bytes of the ranges and phases.
fn put_short(
    fields: &mut Fields<'_>,
    satellites: u64,
    cells: u64,
    random: &mut Random,
) -> [Range; 2] {
    fields.put_column(satellites, 8, random, 67, 20);
    fields.put_column(satellites, 10, random, 0, 1024);
    let values = fields.at;
    fields.put_column(cells, 15, random, 0, 1 << 15);
    fields.put_column(cells, 22, random, 0, 1 << 22);
    let locks = fields.at;
    put_locks(fields, cells, 4, 12, random);
    fields.put_column(cells, 1, random, 0, 1);
    fields.put_column(cells, 6, random, 35, 16);
    [whole_bytes(values, locks), Range { from: 0, to: 0 }]
}

/// Puts lock time indicators that are the same in every epoch, but for one in 256.
fn put_locks(fields: &mut Fields<'_>, cells: u64, width: u32, usual: u64, random: &mut Random) {
    for _ in 0..cells {
        let lock = if random.below(256) == 0 {
            usual / 2
        } else {
            usual
        };
        fields.put(width, lock);
    }
}

/// Returns the whole bytes in a range of bits.
fn whole_bytes(from: usize, to: usize) -> Range {
    Range {
        from: from.div_ceil(8),
        to: to / 8,
    }
}

fn moved(range: Range, by: usize) -> Range {
    Range {
        from: range.from.wrapping_add(by),
        to: range.to.wrapping_add(by),
    }
}

/// Sets time, random bytes and CRC of a spot.
fn set_spot(bytes: &mut [u8], spot: Spot, time: u64, random: &mut Random) {
    fill(bytes, spot.random[0], random);
    fill(bytes, spot.random[1], random);
    let Some(own) = bytes.get_mut(spot.bytes.from..spot.bytes.to) else {
        return;
    };
    if spot.is_timed {
        set_time(own, time);
    }
    if spot.is_frame {
        let (body, end) = own.split_at_mut(own.len().saturating_sub(3));
        let crc = crc24q(body).to_be_bytes();
        let n = end.len().min(3);
        end[..n].copy_from_slice(&crc[1..1 + n]);
    }
}

/// Sets the epoch time of a frame's message (DF004, DF248): bits 24 to 53 of the message.
fn set_time(frame: &mut [u8], time: u64) {
    let Some(own) = frame.get_mut(6..10) else {
        return;
    };
    let Some(last) = own.last().copied() else {
        return;
    };
    let field = ((time % (1 << 30)) as u32) << 2 | u32::from(last % 4);
    let n = own.len().min(4);
    own[..n].copy_from_slice(&field.to_be_bytes()[..n]);
}

/// Fills a range with random bytes, eight at a time; the last ones stay.
fn fill(bytes: &mut [u8], range: Range, random: &mut Random) {
    let Some(own) = bytes.get_mut(range.from..range.to) else {
        return;
    };
    for k in 0..own.len() / 8 {
        own[8 * k..8 * k + 8].copy_from_slice(&random.bits().to_le_bytes());
    }
}
