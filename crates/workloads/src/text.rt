//! An observation file, as a reader: epochs of a converted stream, with other times and values.
use crate::random::Random;
use gnss_obs::GpsTime;
use rinex_columns::Line;
use rinex_file::epoch_line;
use std::alloc::{AllocError, Global};
use std::io;
use std::io::Read;

/// The lines of the satellites of an epoch.
#[derive(Drop)]
struct Lines {
    bytes: Vec<u8>,
    satellites: usize,
    /// The places of the decimals of the values.
    points: Vec<usize>,
}

/// A file of a stated number of epochs.
#[derive(Drop)]
pub struct Text {
    random: Random,
    templates: Vec<Lines>,
    /// Milliseconds since 1980-01-06 of the next epoch.
    time: u64,
    epoch: u64,
    epochs: u64,
    block: Vec<u8>,
    place: usize,
}

impl Lines {
    fn add(&mut self, line: &[u8]) -> Result<(), AllocError> {
        let start = self.bytes.len();
        for (k, byte) in line.iter().enumerate() {
            if *byte == b'.' {
                self.points.push(start.wrapping_add(k))?;
            }
        }
        self.bytes.extend_from_slice(line)?;
        self.satellites = self.satellites.wrapping_add(1);
        Ok(())
    }

    /// Sets the decimals of one in four values to others, none of them 0.
    fn set(&mut self, first: usize, random: &mut Random) {
        let bytes = self.bytes.as_mut_slice();
        for k in 0..self.points.len() / 4 {
            let bits = random.bits() >> 40;
            let place = self.points.get(4 * k + first % 4).copied().unwrap_or(0);
            put(bytes, place.wrapping_add(1), 0x31 + (bits % 8) as u8);
            put(bytes, place.wrapping_add(2), 0x30 + (bits / 8 % 8) as u8);
            put(bytes, place.wrapping_add(3), 0x30 + (bits / 64 % 8) as u8);
        }
    }
}

/// Sets a byte. One after the end is left out.
fn put(bytes: &mut [u8], place: usize, value: u8) {
    if let Some(byte) = bytes.get_mut(place) {
        *byte = value;
    }
}

/// Returns the length of the first line, with its line feed.
fn line_length(bytes: &[u8]) -> usize {
    for (k, byte) in bytes.iter().enumerate() {
        if *byte == b'\n' {
            return k + 1;
        }
    }
    bytes.len()
}

impl Text {
    /// Returns a file of the epochs of another one, again and again, the first of them at a time in
    /// milliseconds since 1980-01-06.
    pub fn new(
        alloc: Global,
        file: &[u8],
        time: u64,
        seed: u64,
        epochs: u64,
    ) -> Result<Text, AllocError> {
        let mut text = Text {
            random: Random::new(seed),
            templates: Vec::new(alloc),
            time,
            epoch: 0,
            epochs,
            block: Vec::new(alloc),
            place: 0,
        };
        let mut rest = file;
        for _ in 0..file.len() {
            if rest.is_empty() {
                break;
            }
            let (line, after) = rest.split_at(line_length(rest).min(rest.len()));
            rest = after;
            text.add_line(alloc, line)?;
        }
        Ok(text)
    }

    /// Adds a line to the header, or to the last epoch.
    fn add_line(&mut self, alloc: Global, line: &[u8]) -> Result<(), AllocError> {
        if line.first() == Some(&b'>') {
            let begun = Lines {
                bytes: Vec::new(alloc),
                satellites: 0,
                points: Vec::new(alloc),
            };
            self.templates.push(begun)?;
            return Ok(());
        }
        match self.templates.as_mut_slice().last_mut() {
            None => self.block.extend_from_slice(line),
            Some(lines) => lines.add(line),
        }
    }

    /// Makes the next epoch. Returns whether there is one.
    fn make_next(&mut self) -> Result<bool, AllocError> {
        let templates = self.templates.len() as u64;
        let index = self.epoch.checked_rem(templates).unwrap_or(0) as usize;
        if self.epoch >= self.epochs {
            return Ok(false);
        }
        self.block.clear();
        self.place = 0;
        let Some(time) = GpsTime::new(self.time) else {
            return Ok(false);
        };
        if let Some(lines) = self.templates.as_mut_slice().get_mut(index) {
            lines.set((self.epoch % 4) as usize, &mut self.random);
            let mut line = Line::new();
            epoch_line(time, lines.satellites, &mut line);
            self.block.extend_from_slice(line.as_slice())?;
            self.block.extend_from_slice(lines.bytes.as_slice())?;
        }
        self.epoch = self.epoch.wrapping_add(1);
        self.time = self.time.wrapping_add(1000);
        Ok(true)
    }
}

impl Read for Text {
    fn read(&mut self, buf: &mut [u8]) -> io::Result<usize> {
        if self.place >= self.block.len() && !self.make_next()? {
            return Ok(0);
        }
        let Some(rest) = self.block.as_slice().get(self.place..) else {
            return Ok(0);
        };
        let n = buf.len().min(rest.len());
        buf[..n].copy_from_slice(&rest[..n]);
        self.place = self.place.wrapping_add(n);
        Ok(n)
    }
}
