//! What a run reads from and writes to, and writing pieces whole.

ghost use Rattle.std.specs.Prelude.{◌≡◌, ◌||◌, Bool, false, List, ℕ, Option, is_err};
ghost use Rattle.std.specs.Io.{ReadsAtMost, WritesAtMost};
ghost use Rattle.std.specs.Io.KnownBytes.{ReadConsumes, WriteAppends};
ghost use Rattle.facl_script.specs.Devices.{write_fails};
ghost use Rattle.facl_script.specs.StdDevices.{fed_by, feed_failed, sunk_in, sink_failed};
ghost use Rattle.facl_script.specs.Streams.{streams};
ghost use Rattle.facl_script.specs.Write.{WritesWhole, WritesAnswer};

use crate::fault::ScriptFault;
use std::io;
use std::io::{Read, Write};

/// A reader that remembers whether it failed.
pub trait Feed {
    /// The bytes that reads will give from here on, if they are known.
    ghost remaining: { Self → Option (List ℕ) };

    /// Whether a read answered an error.
    ghost has_failed: { Self → Bool };

    /// Reads into the front of `buf`, and returns how many bytes. 0 bytes are the end. Each error is a failure, whatever its kind.
    /// After a failure nothing is read.
    fn read(&mut self, buf: &mut [u8]) -> io::Result<usize>
        requires { has_failed self.old ≡ false }
        ensures bound { ReadsAtMost result buf.new }
        ensures bytes { ReadConsumes (remaining self.old) (remaining self.new) result buf.new }
        ensures failed { has_failed self.new ≡ (has_failed self.old || is_err result) };

    /// Tells whether a read answered an error.
    fn failed(&self) -> bool
        ensures { result ≡ has_failed self.now };
}

/// A writer that remembers whether it failed.
pub trait Sink {
    /// The bytes that the writer has, if they are known.
    ghost contents: { Self → Option (List ℕ) };

    /// Whether a write answered an error, or took nothing of a piece that is not empty.
    ghost has_failed: { Self → Bool };

    /// Writes a beginning of the piece, and returns how many bytes. Each error is a failure, whatever its kind. After a failure
    /// nothing is written.
    fn write(&mut self, piece: &[u8]) -> io::Result<usize>
        requires { has_failed self.old ≡ false }
        ensures bound { WritesAtMost result piece.now }
        ensures bytes { WriteAppends (contents self.old) (contents self.new) result piece.now }
        ensures failed { has_failed self.new ≡ (has_failed self.old || write_fails result piece.now) };

    /// Tells whether a write failed.
    fn failed(&self) -> bool
        ensures { result ≡ has_failed self.now };
}

/// Any reader, as a `Feed`.
#[derive(Drop)]
pub struct StdFeed<R> {
    reader: R,
    read_failed: bool,
}

impl<R: Read> StdFeed<R> {
    /// Returns a feed that has not failed. Its bytes are known if the reader's are.
    pub fn new(reader: R) -> StdFeed<R>
        ensures reader { fed_by result ≡ reader }
        ensures works { feed_failed result ≡ false }
    {
        StdFeed {
            reader,
            read_failed: false,
        }
    }
}

impl<R: Read> Feed for StdFeed<R> {
    ghost remaining = { λ f. R.remaining (fed_by f) };

    ghost has_failed = { feed_failed };

    fn read(&mut self, buf: &mut [u8]) -> io::Result<usize> {
        let outcome = self.reader.read(buf);
        match &outcome {
            Ok(_) => {}
            Err(_) => self.read_failed = true,
        }
        outcome
    }

    fn failed(&self) -> bool {
        self.read_failed
    }
}

/// Any writer, as a `Sink`.
#[derive(Drop)]
pub struct StdSink<W> {
    writer: W,
    write_failed: bool,
}

impl<W: Write> StdSink<W> {
    /// Returns a sink that has not failed. Its bytes are known if the writer's are.
    pub fn new(writer: W) -> StdSink<W>
        ensures writer { sunk_in result ≡ writer }
        ensures works { sink_failed result ≡ false }
    {
        StdSink {
            writer,
            write_failed: false,
        }
    }
}

impl<W: Write> Sink for StdSink<W> {
    ghost contents = { λ s. W.contents (sunk_in s) };

    ghost has_failed = { sink_failed };

    fn write(&mut self, piece: &[u8]) -> io::Result<usize> {
        let outcome = self.writer.write(piece);
        match &outcome {
            Ok(0) if !piece.is_empty() => self.write_failed = true,
            Ok(_) => {}
            Err(_) => self.write_failed = true,
        }
        outcome
    }

    fn failed(&self) -> bool {
        self.write_failed
    }
}

/// Writes all of the bytes, or a proper beginning of them if the writer fails. No write is tried again after an
/// error, nor after one that takes nothing.
pub fn write_whole<W: Sink>(sink: &mut W, bytes: &[u8]) -> Result<(), ScriptFault>
    requires { W.has_failed sink.old ≡ false }
    ensures writes { WritesWhole result (W.contents sink.old) (W.contents sink.new) bytes.now }
    ensures failed { W.has_failed sink.new ≡ is_err result }
{
    let mut done = 0;
    while done < bytes.len() {
        match sink.write(&bytes[done..]) {
            Ok(0) => return Err(ScriptFault::Write),
            Ok(taken) => done += taken,
            Err(_) => return Err(ScriptFault::Write),
        }
    }
    Ok(())
}

/// Writes the answer of a unit: all of its output, and then its messages.
pub fn write_answer<O: Sink, E: Sink>(
    out: &mut O,
    err: &mut E,
    to_out: &[u8],
    to_err: &[u8],
) -> Result<(), ScriptFault>
    requires out_works { O.has_failed out.old ≡ false }
    requires err_works { E.has_failed err.old ≡ false }
    ensures writes { WritesAnswer result
        (streams (O.contents out.old) (E.contents err.old)) (streams (O.contents out.new) (E.contents err.new))
        to_out.now to_err.now }
    ensures failed { (O.has_failed out.new || E.has_failed err.new) ≡ is_err result }
{
    write_whole(out, to_out)?;
    write_whole(err, to_err)?;
    Ok(())
}
