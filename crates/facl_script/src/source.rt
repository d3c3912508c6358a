//! The script's bytes, read in chunks and returned by lines.
ghost use Rattle.std.specs.Prelude.{◌≡◌, ◌≤◌, ◌<◌, ◌+◌, ◌-◌, ℕ, false, List, [], ◌++◌, drop, length, is_err, IfOk};
ghost use Rattle.facl_script.specs.Lines.{Held};
ghost use Rattle.facl_script.specs.Limits.{chunk_limit, script_limit};
ghost use Rattle.facl_script.specs.Devices.{ReadsSome};

use crate::devices::Feed;
use crate::fault::ScriptFault;
use memchr::memchr;
use std::alloc::AllocError;

/// How many bytes a script may have.
pub const SCRIPT_LIMIT: u64 = 67_108_864;

/// How many bytes a line may have, without its LF.
pub const LINE_LIMIT: usize = 65_536;

const CHUNK: usize = 65_536;

/// A line that was found.
#[derive(Clone, Copy)]
pub(crate) struct LineRead {
    pub is_ended: bool,
    pub is_too_long: bool,
}

/// Adds a piece to what is kept of a line, and returns whether the line is too long by now.
fn hold(line: &mut Vec<u8>, is_too_long: bool, piece: &[u8]) -> Result<bool, AllocError>
    ensures { IfOk result (λ long. (text : List ℕ)
        → Held is_too_long line.old.items text → Held long line.new.items (text ++ piece.now)) }
{
    if is_too_long || line.len() + piece.len() > LINE_LIMIT {
        return Ok(true);
    }
    line.extend_from_slice(piece)?;
    Ok(false)
}

/// Reads into the front of a chunk.
fn read_some<R: Feed>(reader: &mut R, chunk: &mut [u8], room: usize) -> Result<usize, ScriptFault>
    requires works { R.has_failed reader.old ≡ false }
    requires room { 0 < room }
    requires fits { room ≤ length chunk.old }
    ensures reads { ReadsSome result (R.remaining reader.old) (R.remaining reader.new) chunk.new room }
    ensures failed { R.has_failed reader.new ≡ is_err result }
{
    match reader.read(&mut chunk[..room]) {
        Ok(n) => Ok(n),
        Err(_) => Err(ScriptFault::Read),
    }
}

/// What was read and not yet returned.
#[derive(Drop)]
pub(crate) struct ByteSource {
    chunk: [u8; CHUNK],
    start: usize,
    end: usize,
    taken: u64,
    ghost in_order: { start ≤ end },
    ghost in_chunk: { end ≤ chunk_limit },
    ghost within: { taken + (end - start) ≤ script_limit },
}

impl ByteSource {
    ghost use Rattle.facl_script.specs.ByteSource.{pending, taken_count, Fills, ReadsLine};

    /// Returns a source of which nothing is read.
    pub fn new() -> ByteSource
        ensures none { pending result ≡ [] }
        ensures count { taken_count result ≡ 0 }
    {
        ByteSource {
            chunk: [0; CHUNK],
            start: 0,
            end: 0,
            taken: 0,
        }
    }

    /// Returns the bytes that were read and not taken yet.
    pub fn pending(&self) -> &[u8]
        ensures all { result.now ≡ pending self.now }
        ensures within { length result.now ≤ chunk_limit }
    {
        &self.chunk[self.start..self.end]
    }

    /// Drops the first `n` of the pending bytes.
    pub fn skip(&mut self, n: usize)
        requires { n ≤ length (pending self.old) }
        ensures pending { pending self.new ≡ drop n (pending self.old) }
        ensures count { taken_count self.new ≡ taken_count self.old + n }
    {
        self.start += n;
        self.taken += n as u64;
    }

    /// Reads a chunk if nothing is pending. At the limit of the script it reads one byte more, which has to be the
    /// end.
    fn fill<R: Feed>(&mut self, reader: &mut R) -> Result<(), ScriptFault>
        requires { R.has_failed reader.old ≡ false }
        ensures fills { Fills result self.old self.new
            (R.remaining reader.old) (R.remaining reader.new) (R.has_failed reader.new) }
        ensures count { taken_count self.new ≡ taken_count self.old }
    {
        if self.start < self.end {
            return Ok(());
        }
        self.start = 0;
        self.end = 0;
        let left = SCRIPT_LIMIT - self.taken;
        if left == 0 {
            let n = read_some(reader, &mut self.chunk, 1)?;
            return if n == 0 {
                Ok(())
            } else {
                Err(ScriptFault::TooLong)
            };
        }
        let room = left.min(CHUNK as u64) as usize;
        self.end = read_some(reader, &mut self.chunk, room)?;
        Ok(())
    }

    /// Returns the next line of the script, without its LF. `None` is the end.
    pub fn next_line<R: Feed>(
        &mut self,
        reader: &mut R,
        line: &mut Vec<u8>,
    ) -> Result<Option<LineRead>, ScriptFault>
        requires { R.has_failed reader.old ≡ false }
        ensures reads { ReadsLine result line.new.items self.old self.new
            (R.remaining reader.old) (R.remaining reader.new) (R.has_failed reader.new) }
        ensures grows { taken_count self.old ≤ taken_count self.new }
    {
        line.clear();
        let mut is_too_long = false;
        let mut is_empty = true;
        loop {
            self.fill(reader)?;
            let piece = self.pending();
            let n = piece.len();
            if n == 0 {
                if is_empty {
                    return Ok(None);
                }
                return Ok(Some(LineRead {
                    is_ended: false,
                    is_too_long,
                }));
            }
            match memchr(b'\n', piece) {
                Some(at) => {
                    is_too_long = hold(line, is_too_long, &piece[..at])?;
                    self.skip(at + 1);
                    return Ok(Some(LineRead {
                        is_ended: true,
                        is_too_long,
                    }));
                }
                None => {
                    is_too_long = hold(line, is_too_long, piece)?;
                    self.skip(n);
                    is_empty = false;
                }
            }
        }
    }
}
