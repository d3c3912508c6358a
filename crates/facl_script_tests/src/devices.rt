//! Readers and writers that fail, or that look at each other.
use std::cell::Cell;
use std::io;
use std::io::{ErrorKind, Read, Write};

/// Gives its bytes, then 0 bytes once, and fails at each read after that.
#[derive(Drop)]
pub struct EndingReader<'a> {
    pub bytes: &'a [u8],
    pub has_ended: bool,
}

impl Read for EndingReader<'_> {
    fn read(&mut self, buf: &mut [u8]) -> io::Result<usize> {
        if self.has_ended {
            return Err(io::Error::from(ErrorKind::Other));
        }
        let n = self.bytes.read(buf)?;
        self.has_ended = n == 0;
        Ok(n)
    }
}

/// Gives its bytes one at a time. One call fails, with the error that other code tries again, or gives 0 bytes, and every
/// later one works. It counts its calls.
#[derive(Drop)]
pub struct FaultyReader<'a> {
    pub bytes: &'a [u8],
    pub calls: usize,
    pub faulty_call: usize,
    pub gives_nothing: bool,
}

impl Read for FaultyReader<'_> {
    fn read(&mut self, buf: &mut [u8]) -> io::Result<usize> {
        let call = self.calls;
        self.calls = call.saturating_add(1);
        if call == self.faulty_call {
            if self.gives_nothing {
                return Ok(0);
            }
            return Err(io::Error::from(ErrorKind::Interrupted));
        }
        if buf.is_empty() {
            return Ok(0);
        }
        self.bytes.read(&mut buf[..1])
    }
}

/// Gives its bytes one at a time, or a line at a time. At each read it notes how many bytes it gave before, and how many
/// a writer had taken by then.
#[derive(Drop)]
pub struct WatchingReader<'a> {
    pub bytes: &'a [u8],
    pub given: usize,
    pub gives_lines: bool,
    pub written: &'a Cell<usize>,
    pub seen: Vec<(usize, usize)>,
}

/// How many bytes the first line has, with its LF.
fn line_length(bytes: &[u8]) -> usize {
    for (at, byte) in bytes.iter().enumerate() {
        if *byte == b'\n' {
            return at.saturating_add(1);
        }
    }
    bytes.len()
}

impl Read for WatchingReader<'_> {
    fn read(&mut self, buf: &mut [u8]) -> io::Result<usize> {
        self.seen.push((self.given, self.written.get()))?;
        let most = if self.gives_lines {
            line_length(self.bytes)
        } else {
            1
        };
        let most = most.min(buf.len());
        let n = self.bytes.read(&mut buf[..most])?;
        self.given = self.given.saturating_add(n);
        Ok(n)
    }
}

/// Takes all bytes, and counts them where a reader can look.
#[derive(Drop)]
pub struct WatchedWriter<'a> {
    pub written: &'a Cell<usize>,
}

impl Write for WatchedWriter<'_> {
    fn write(&mut self, buf: &[u8]) -> io::Result<usize> {
        self.written
            .set(self.written.get().saturating_add(buf.len()));
        Ok(buf.len())
    }

    fn flush(&mut self) -> io::Result<()> {
        Ok(())
    }
}

/// Gives comment lines of 1,023 bytes, up to a number of bytes in all.
#[derive(Drop)]
pub struct CommentReader {
    pub given: u64,
    pub total: u64,
}

impl Read for CommentReader {
    fn read(&mut self, buf: &mut [u8]) -> io::Result<usize> {
        for (i, b) in buf.iter_mut().enumerate() {
            if self.given >= self.total {
                return Ok(i);
            }
            *b = if self.given % 1024 == 1023 {
                b'\n'
            } else {
                b'#'
            };
            self.given += 1;
        }
        Ok(buf.len())
    }
}

/// Takes one byte a call. One call fails, or takes nothing, and every later one works. It counts its calls.
#[derive(Drop)]
pub struct FaultyWriter {
    pub held: Vec<u8>,
    pub calls: usize,
    pub faulty_call: usize,
    pub takes_nothing: bool,
}

impl Write for FaultyWriter {
    fn write(&mut self, buf: &[u8]) -> io::Result<usize> {
        let call = self.calls;
        self.calls = call.saturating_add(1);
        if call == self.faulty_call {
            if self.takes_nothing {
                return Ok(0);
            }
            return Err(io::Error::from(ErrorKind::Interrupted));
        }
        let [first, ..] = buf else {
            return Ok(0);
        };
        self.held.push(*first)?;
        Ok(1)
    }

    fn flush(&mut self) -> io::Result<()> {
        Ok(())
    }
}
