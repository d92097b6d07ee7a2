//! A buffer before a writer, so that many small writes make few calls of a device.
ghost use Rattle.std.specs.Prelude.{◌≡◌, ◌+◌, ◌-◌, ◌<◌, ◌≤◌, [], false, length, min, Ok, OnOk};
ghost use Rattle.std.specs.Prelude.{IfOk, vec_capacity};
ghost use Rattle.std.specs.Io.{WritesAtMost};
ghost use Rattle.std.specs.Io.KnownBytes.{Keeps, WriteAppends};
ghost use Rattle.devices.specs.Buffering.{StaysFailed, buffer_bytes, contents_of, waiting_of};
ghost use Rattle.std.proofs.Common.{rules};
ghost use Rattle.std.proofs.lemmas.Grind.{common_steps};

use crate::deliver::Deliver;
use std::alloc::{AllocError, Global};
use std::io::{self, ErrorKind, Write};
use std::marker::Model;

/// Capacity of the buffer, in bytes: that of a pipe.
const BUFFER_BYTES: usize = 65_536;

/// A writer with a buffer of 65,536 bytes before a device.
///
/// The buffer is written when it is full, and by `flush`; a drop writes nothing. No call is
/// repeated: once the device has failed, it isn't called again, and every call fails.
#[derive(Drop)]
pub struct Buffered<W> {
    device: W,
    bytes: Vec<u8>,
    /// The number of these bytes that the device accepted.
    sent: usize,
    failed: bool,
}

impl<W> Model for Buffered<W> {
    ghost use Rattle.std.specs.Prelude.{◌≡◌, ◌≤◌, false, drop, length, vec_capacity};
    ghost use Rattle.devices.specs.Buffering.{Buffering, buffer_bytes};

    ghost Value = { Buffering W };

    ghost view = { λ b. record { device = b.device; waiting = drop b.sent b.bytes.items; has_failed = b.failed } };

    ghost invariant = { λ b. (length b.bytes.items ≤ buffer_bytes) × (buffer_bytes ≤ vec_capacity b.bytes)
        × (b.failed ≡ false → b.sent ≡ 0) };
}

impl<W> Buffered<W> {
    /// Returns the device with an empty buffer.
    ///
    /// # Errors
    ///
    /// `AllocError` if the memory for the buffer can't be allocated. The device is then dropped.
    pub fn new(alloc: Global, device: W) -> Result<Buffered<W>, AllocError>
    where
        W: Drop,
        ensures device { IfOk result (λ b. b.device ≡ device) }
        ensures empty { IfOk result (λ b. b.waiting ≡ []) }
        ensures fine { IfOk result (λ b. b.has_failed ≡ false) }
    {
        Ok(Buffered {
            bytes: Vec::with_capacity(alloc, BUFFER_BYTES)?,
            device,
            sent: 0,
            failed: false,
        })
    }

    /// Returns the device. Bytes in the buffer are lost.
    pub fn into_inner(self) -> W
        ensures { result ≡ self.device }
    {
        self.device
    }
}

impl<W: Write> Buffered<W> {
    /// Writes the bytes in the buffer, up to a failure. Fails if the device has failed before.
    fn write_out(&mut self) -> io::Result<()>
        ensures bytes { Keeps (contents_of W.contents self.old) (contents_of W.contents self.new) }
        ensures all { OnOk result (self.new.waiting ≡ []) }
        ensures stays { StaysFailed result self.old self.new }
    {
        if self.failed {
            return Err(io::Error::from(ErrorKind::Other));
        }
        self.failed = true;
        while self.sent < self.bytes.len() {
            match self.device.write(&self.bytes[self.sent..])? {
                0 => return Err(io::Error::from(ErrorKind::WriteZero)),
                n => self.sent += n,
            }
        }
        self.bytes.clear();
        self.sent = 0;
        self.failed = false;
        Ok(())
    }
}

impl<W: Deliver> Write for Buffered<W> {
    ghost contents = { contents_of W.contents };

    fn write(&mut self, buf: &[u8]) -> io::Result<usize>
        ensures bound { WritesAtMost result buf.now }
        ensures bytes { WriteAppends (contents_of W.contents self.old) (contents_of W.contents self.new) result
            buf.now }
        ensures stays { StaysFailed result self.old self.new }
        ensures room { self.old.has_failed ≡ false → length self.old.waiting < buffer_bytes
            → result ≡ Ok (min (length buf.now) (buffer_bytes - length self.old.waiting)) }
        ensures some { IfOk result (λ n. 0 < length buf.now → 0 < n) }
    {
        if self.failed || self.bytes.len() == BUFFER_BYTES {
            self.write_out()?;
        }
        let n = buf.len().min(BUFFER_BYTES - self.bytes.len());
        self.bytes.extend_from_slice(&buf[..n]).unwrap();
        Ok(n)
    }

    fn flush(&mut self) -> io::Result<()>
        ensures bytes { Keeps (contents_of W.contents self.old) (contents_of W.contents self.new) }
        ensures all { OnOk result (self.new.waiting ≡ []) }
        ensures device { OnOk result (W.waiting self.new.device ≡ []) }
        ensures stays { StaysFailed result self.old self.new }
    {
        self.write_out()?;
        let result = self.device.deliver();
        self.failed = result.is_err();
        result
    }
}

impl<W: Deliver> Deliver for Buffered<W> {
    type Target = W::Target;

    ghost target = { λ b. W.target b.device };

    ghost waiting = { waiting_of W.waiting };

    ghost parts = { λ b. let device = W.parts b.device in Prim.search (rules, common_steps) };

    fn target(&self) -> &W::Target {
        self.device.target()
    }

    fn deliver(&mut self) -> io::Result<()>
        ensures bytes { Keeps (contents_of W.contents self.old) (contents_of W.contents self.new) }
        ensures all { OnOk result (waiting_of W.waiting self.new ≡ []) }
        ensures stays { StaysFailed result self.old self.new }
    {
        self.flush()
    }
}
