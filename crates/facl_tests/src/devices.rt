//! A reader and a writer that fail once, and then work: what is called again is seen.

use std::io;
use std::io::{ErrorKind, Read, Write};

/// Gives its bytes one at a time. One call fails, and every later one works. It counts its calls.
#[derive(Drop)]
pub struct RecoveringReader<'a> {
    pub bytes: &'a [u8],
    pub calls: usize,
    pub faulty_call: usize,
}

impl Read for RecoveringReader<'_> {
    fn read(&mut self, buf: &mut [u8]) -> io::Result<usize> {
        let call = self.calls;
        self.calls = call.saturating_add(1);
        if call == self.faulty_call {
            return Err(io::Error::from(ErrorKind::Interrupted));
        }
        if buf.is_empty() {
            return Ok(0);
        }
        self.bytes.read(&mut buf[..1])
    }
}

/// Takes one byte a call. One call fails, or takes nothing, and every later one works. It counts its calls.
#[derive(Drop)]
pub struct RecoveringWriter {
    pub held: Vec<u8>,
    pub calls: usize,
    pub faulty_call: usize,
    pub takes_nothing: bool,
}

impl Write for RecoveringWriter {
    fn write(&mut self, buf: &[u8]) -> io::Result<usize> {
        let call = self.calls;
        self.calls = call.saturating_add(1);
        if call == self.faulty_call {
            if self.takes_nothing {
                return Ok(0);
            }
            return Err(io::Error::from(ErrorKind::Interrupted));
        }
        let [first, ..] = buf else {
            return Ok(0);
        };
        self.held.push(*first)?;
        Ok(1)
    }

    fn flush(&mut self) -> io::Result<()> {
        Ok(())
    }
}
