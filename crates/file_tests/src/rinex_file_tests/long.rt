//! A file of many epochs, which exceeds the initial capacity of its vectors.
use super::parts::{Part, text_of};
use super::reading::{Content, SMALL, is_read};
use arrayvec::ArrayVec;
use std::alloc::Global;

/// The text of the file.
pub type Long = ArrayVec<u8, 163_840>;

fn put(text: &mut Long, part: &[u8]) {
    let _ = text.try_extend_from_slice(part);
}

/// Appends two digits, with `blank` in place of a leading 0.
fn put_two(text: &mut Long, number: usize, blank: u8) {
    let tens = (number / 10 % 10) as u8;
    let ones = (number % 10) as u8;
    put(text, &[if tens == 0 { blank } else { b'0' + tens }]);
    put(text, &[b'0' + ones]);
}

/// Appends the epoch at a second after midnight.
fn put_epoch(text: &mut Long, second: usize) {
    put(text, b"> 2024 02 04 00 ");
    put_two(text, second / 60, b'0');
    put(text, b" ");
    put_two(text, second % 60, b' ');
    put(text, b".0000000  0  1\n");
    put(
        text,
        text_of(Part::Epoch).as_bytes().get(36..).unwrap_or(&[]),
    );
}

static CONTENT: Content = Content {
    epochs: 300,
    satellites: 300,
    ..SMALL
};

/// The text of a file of this number of epochs, one a second.
pub fn long_text(epochs: usize) -> Long {
    let mut text = Long::new();
    put(&mut text, text_of(Part::Header).as_bytes());
    for epoch in 0..epochs {
        put_epoch(&mut text, epoch + 1);
    }
    text
}

fn is_long_read(alloc: Global) -> bool {
    let text = long_text(300);
    let is_read = is_read(alloc, text.as_slice(), &CONTENT);
    drop(text);
    is_read
}

#[test]
fn a_file_of_many_epochs_is_read_and_written_back(rt: HostRuntime) {
    assert!(rt; is_long_read(rt.alloc()));
}
