//! Writers of which it is known which bytes wait in them, and where they end.
ghost use Rattle.std.specs.Prelude.{◌≡◌, ℕ, List, [], ◌++◌, OnOk, refl};
ghost use Rattle.std.specs.Io.Buffered.{writer_buffer, writer_inner};
ghost use Rattle.std.specs.Io.KnownBytes.{Keeps, append_known};
ghost use Rattle.std.proofs.Common.{rules};
ghost use Rattle.std.proofs.lemmas.Grind.{common_steps};

use arrayvec::ArrayVec;
use std::fs::File;
use std::io::{self, BufWriter, Sink, Stderr, Stdout, Write};

/// A writer in which no byte waits: it passes on each byte in `write`, or is itself where the bytes
/// end, as a `Vec`.
///
/// An implementor answers for that, and for nothing else in this module. A writer with a buffer of
/// its own doesn't implement it. What the operating system does with a byte is not part of it.
pub trait Destination: Write {}

/// A writer that says which bytes wait in it, accepted and not yet at its destination, and that can
/// pass all of them on.
///
/// A `Destination` has no waiting bytes. Any other writer has another `Deliver` as its device: its
/// destination is that of the device, and the bytes that wait are those that wait in the device,
/// followed by its own.
///
/// By `parts` the contents of a writer are those of its destination, followed by the bytes that
/// wait. So a writer over any `P: Deliver`, with the destination of `P`, can't leave out a byte that
/// waits in it or in `P`. A writer over one device of unknown contents, such as a `File`, could: make
/// it generic.
///
/// # Example
///
/// A line of text before a port, which waits there until it is delivered. Its contents are those of
/// the port, followed by the line:
///
/// ```
/// impl<P: Deliver> Deliver for LineBuffer<P> {
///     type Target = P::Target;
///
///     ghost target = { λ b. P.target b.port };
///
///     ghost waiting = { λ b. P.waiting b.port ++ b.line.items };
///
///     ghost parts = { λ b. let port = P.parts b.port in Prim.search (rules, common_steps) };
///
///     fn target(&self) -> &P::Target {
///         self.port.target()
///     }
///
///     fn deliver(&mut self) -> io::Result<()> {
///         self.flush()?;
///         self.port.deliver()
///     }
/// }
/// ```
///
/// `flush` of this writer ensures `OnOk result (self.new.line.items ≡ [])`; `rules` is of
/// `Rattle.std.proofs.Common`, `common_steps` of `Rattle.std.proofs.lemmas.Grind`. For a
/// destination the target is the writer itself, `waiting` is `λ _. []`, and `parts` is searched
/// too, or `refl` if its contents are not known.
pub trait Deliver: Write {
    /// Where the bytes end.
    type Target: Destination;

    // The destination of this writer.
    ghost target: { Self → Self.Target };

    // The bytes that the writer accepted and that are not yet at the destination.
    ghost waiting: { Self → List ℕ };

    /// Returns the destination.
    fn target(&self) -> &Self::Target
        ensures { result.now ≡ target self.now };

    /// Passes on all waiting bytes.
    ///
    /// # Errors
    ///
    /// The error of the device. Bytes may still wait then.
    fn deliver(&mut self) -> io::Result<()>
        ensures bytes { Keeps (Self.contents self.old) (Self.contents self.new) }
        ensures all { OnOk result (waiting self.new ≡ []) };

    // The contents are those of the destination, followed by the bytes that wait.
    ghost parts: { (w : Self) → Self.contents w ≡ append_known (Self.Target.contents (target w)) (waiting w) };
}

impl<W: Deliver> Deliver for &mut W {
    type Target = W::Target;

    ghost target = { λ w. W.target w.now };

    ghost waiting = { λ w. W.waiting w.now };

    ghost parts = { λ w. W.parts w.now };

    fn target(&self) -> &W::Target {
        (**self).target()
    }

    fn deliver(&mut self) -> io::Result<()> {
        Deliver::deliver(&mut **self)
    }
}

impl<W: Deliver + Drop> Deliver for BufWriter<W> {
    type Target = W::Target;

    ghost target = { λ w. W.target (writer_inner w) };

    ghost waiting = { λ w. W.waiting (writer_inner w) ++ writer_buffer w };

    ghost parts = { λ w. let device = W.parts (writer_inner w) in Prim.search (rules, common_steps) };

    fn target(&self) -> &W::Target {
        self.get_ref().target()
    }

    fn deliver(&mut self) -> io::Result<()> {
        self.flush()?;
        self.get_mut().deliver()
    }
}

impl Destination for Vec<u8> {}

impl Deliver for Vec<u8> {
    type Target = Vec<u8>;

    ghost target = { λ w. w };

    ghost waiting = { λ _. [] };

    ghost parts = { λ _. Prim.search (rules, common_steps) };

    fn target(&self) -> &Vec<u8> {
        self
    }

    fn deliver(&mut self) -> io::Result<()> {
        self.flush()
    }
}

impl<const CAP: usize> Destination for ArrayVec<u8, CAP> {}

impl<const CAP: usize> Deliver for ArrayVec<u8, CAP> {
    type Target = ArrayVec<u8, CAP>;

    ghost target = { λ w. w };

    ghost waiting = { λ _. [] };

    ghost parts = { λ _. Prim.search (rules, common_steps) };

    fn target(&self) -> &ArrayVec<u8, CAP> {
        self
    }

    fn deliver(&mut self) -> io::Result<()> {
        self.flush()
    }
}

// The contents of those that follow are not known.

impl Destination for File {}

impl Deliver for File {
    type Target = File;

    ghost target = { λ w. w };

    ghost waiting = { λ _. [] };

    ghost parts = { λ _. refl };

    fn target(&self) -> &File {
        self
    }

    fn deliver(&mut self) -> io::Result<()> {
        self.flush()
    }
}

impl Destination for Stdout {}

impl Deliver for Stdout {
    type Target = Stdout;

    ghost target = { λ w. w };

    ghost waiting = { λ _. [] };

    ghost parts = { λ _. refl };

    fn target(&self) -> &Stdout {
        self
    }

    fn deliver(&mut self) -> io::Result<()> {
        self.flush()
    }
}

impl Destination for Stderr {}

impl Deliver for Stderr {
    type Target = Stderr;

    ghost target = { λ w. w };

    ghost waiting = { λ _. [] };

    ghost parts = { λ _. refl };

    fn target(&self) -> &Stderr {
        self
    }

    fn deliver(&mut self) -> io::Result<()> {
        self.flush()
    }
}

impl Destination for Sink {}

impl Deliver for Sink {
    type Target = Sink;

    ghost target = { λ w. w };

    ghost waiting = { λ _. [] };

    ghost parts = { λ _. refl };

    fn target(&self) -> &Sink {
        self
    }

    fn deliver(&mut self) -> io::Result<()> {
        self.flush()
    }
}
