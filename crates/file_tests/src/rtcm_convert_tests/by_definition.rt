//! A conversion by the definitions, over whole lists, for streams of four known messages: their
//! frames, the looks at each byte, the report and the file.
use super::{ONE, file};
use arrayvec::ArrayVec;
use rtcm_convert::{Fault, Report};
use streams_for_tests::{PLACES, SIZE, claimed, four_frames, is_frame};

/// The lines of the file with the position, and with the height of 1.5 m.
const POSITION: &str =
    "  1114104.5999 -4850729.7108  3975521.4643                  APPROX POSITION XYZ \n";

const HEIGHT: &str =
    "        1.5000        0.0000        0.0000                  ANTENNA: DELTA H/E/N\n";

/// The line of the cell of message 1074.
const COARSE: &str = "G05  20985472.042 7 110279400.00327                        45.000\n";

pub type Text = ArrayVec<u8, 1_500>;

/// A stream by the definitions.
#[derive(Drop)]
pub struct DefinedConversion {
    /// The messages of the four that it has.
    has: [bool; 4],
    /// The number of frames, their bytes, and the number of places before the first undecided one.
    frames: u64,
    framed: u64,
    decided: usize,
    looks: [u16; SIZE],
}

/// Whether a frame is that of the four with this number.
fn is_known(frame: &[u8], number: usize) -> bool {
    match PLACES.get(number) {
        Some((from, to)) => four_frames().get(*from..*to) == Some(frame),
        None => false,
    }
}

impl DefinedConversion {
    /// Counts one more look at each of these bytes.
    fn look_at(&mut self, from: usize, to: usize) {
        for place in from..to.min(SIZE) {
            self.looks[place] = self.looks[place].saturating_add(1);
        }
    }

    fn add(&mut self, frame: &[u8]) {
        self.frames = self.frames.saturating_add(1);
        self.framed = self.framed.saturating_add(frame.len() as u64);
        for number in 0..4 {
            if is_known(frame, number) {
                self.has[number] = true;
            }
        }
    }

    /// Tries the candidate at a byte, and returns the next one; None if bytes can be missing.
    fn try_at(&mut self, bytes: &[u8], place: usize, has_ended: bool) -> Option<usize> {
        let rest = &bytes[place.min(bytes.len())..];
        let claim = claimed(rest);
        let end = place.saturating_add(claim);
        self.look_at(place, end.min(bytes.len()));
        if end > bytes.len() && !has_ended {
            return None;
        }
        if !is_frame(rest, claim) {
            return Some(place.saturating_add(1));
        }
        let start = place.saturating_add(3);
        self.look_at(start, end.saturating_sub(3));
        self.add(&rest[..claim.min(rest.len())]);
        Some(end)
    }

    /// The undecided bytes, the looks, and the most at one byte.
    pub fn counts(&self, size: usize) -> (usize, u64, u16) {
        let mut examined = 0u64;
        let mut most = 0;
        for looks in &self.looks {
            examined = examined.saturating_add(u64::from(*looks));
            most = most.max(*looks);
        }
        (size.saturating_sub(self.decided), examined, most)
    }

    /// Whether it has an epoch. Messages 1077 and 1074 have the same time, and each ends its epoch:
    /// the second is late.
    fn has_epoch(&self) -> bool {
        self.has[2] || self.has[3]
    }

    /// The result of the end of the stream.
    pub fn result(&self, size: usize) -> Result<Report, Fault> {
        if self.has_epoch() {
            let bytes = size as u64;
            Ok(Report {
                bytes,
                skipped_bytes: bytes.saturating_sub(self.framed),
                frames: self.frames,
                station: u64::from(self.has[0]) + u64::from(self.has[1]),
                late: u64::from(self.has[2] && self.has[3]),
                ..ONE
            })
        } else {
            Err(Fault::NoEpoch)
        }
    }

    /// The lines of the file with the position, the height and the cell.
    fn position(&self) -> &'static [u8] {
        if self.has[0] || self.has[1] {
            POSITION.as_bytes()
        } else {
            piece(567, 648)
        }
    }

    fn height(&self) -> &'static [u8] {
        if self.has[1] {
            HEIGHT.as_bytes()
        } else {
            piece(648, 729)
        }
    }

    fn cell(&self) -> &'static [u8] {
        if self.has[2] {
            piece(1_170, 1_236)
        } else {
            COARSE.as_bytes()
        }
    }

    /// The file, of GPS 1C alone; empty if there is no epoch.
    pub fn file(&self) -> Text {
        let mut text = Text::new();
        if self.has_epoch() {
            put(&mut text, piece(0, 567));
            put(&mut text, self.position());
            put(&mut text, self.height());
            put(&mut text, piece(729, 1_170));
            put(&mut text, self.cell());
        }
        text
    }

    /// Whether this is the file.
    pub fn is_file(&self, bytes: &[u8]) -> bool {
        let text = self.file();
        let is_file = text.as_slice() == bytes;
        drop(text);
        is_file
    }
}

/// A part of the known file.
pub fn piece(from: usize, to: usize) -> &'static [u8] {
    file().get(from..to).unwrap_or(&[])
}

fn put(text: &mut Text, bytes: &[u8]) {
    let _ = text.try_extend_from_slice(bytes);
}

/// These bytes by the definitions, as a whole stream or as its start.
pub fn defined_conversion(bytes: &[u8], has_ended: bool) -> DefinedConversion {
    let mut defined = DefinedConversion {
        has: [false; 4],
        frames: 0,
        framed: 0,
        decided: 0,
        looks: [0; SIZE],
    };
    for place in 0..bytes.len() {
        if place == defined.decided {
            match defined.try_at(bytes, place, has_ended) {
                Some(next) => defined.decided = next,
                None => return defined,
            }
        }
    }
    defined
}
