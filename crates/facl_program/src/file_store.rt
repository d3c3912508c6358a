//! Opens files by their names and reads them.

ghost use Rattle.std.specs.Prelude.{◌≡◌, true, false, Bool, List, ℕ, is_err, is_ok, is_some};
ghost use Rattle.std.specs.Io.{ReadsAtMost};
ghost use Rattle.facl_program.specs.FileStores.{Bytes, Opens, Reads, unknown};

use std::fs::File;
use std::io;
use std::io::Read;

/// Opens files by their names, one at a time, and reads the one that is open. It remembers whether it failed: after a
/// failure nothing is opened or read.
pub trait FileStore {
    /// What is known of the bytes of the file of a name.
    ghost bytes_of: { Self → List ℕ → Bytes };

    /// What is known of the bytes that the open file has left.
    ghost left: { Self → Bytes };

    /// Whether a file could not be opened, a read returned an error, or a file was refused.
    ghost has_failed: { Self → Bool };

    /// Whether a file is open.
    ghost is_open: { Self → Bool };

    /// Opens a file, if none is open. Its first byte is read next.
    fn open(&mut self, file: &str) -> io::Result<()>
        requires works { has_failed self.old ≡ false }
        requires closed { is_open self.old ≡ false }
        ensures bytes { Opens (bytes_of self.old file.now) (left self.new) result }
        ensures failed { has_failed self.new ≡ is_err result }
        ensures open { is_open self.new ≡ is_ok result }
        ensures same { bytes_of self.new ≡ bytes_of self.old };

    /// Reads into the front of `buf`, and returns how many bytes. 0 bytes are the end of the open file.
    fn read(&mut self, buf: &mut [u8]) -> io::Result<usize>
        requires works { has_failed self.old ≡ false }
        requires open { is_open self.old ≡ true }
        ensures bound { ReadsAtMost result buf.new }
        ensures bytes { Reads (left self.old) (left self.new) result buf.new }
        ensures failed { has_failed self.new ≡ is_err result }
        ensures open { is_open self.new ≡ true }
        ensures same { bytes_of self.new ≡ bytes_of self.old };

    /// Refuses a file for what it contains: as after a failure, nothing is opened or read from then on.
    fn refuse(&mut self)
        ensures failed { has_failed self.new ≡ true }
        ensures same { bytes_of self.new ≡ bytes_of self.old };

    /// Closes the file that is open, if any.
    fn close(&mut self)
        ensures closed { is_open self.new ≡ false }
        ensures failed { has_failed self.new ≡ has_failed self.old }
        ensures same { bytes_of self.new ≡ bytes_of self.old };
}

/// The files of the system. What they contain is not known.
#[derive(Drop)]
pub(crate) struct SystemFiles<'a> {
    rt: &'a HostRuntime,
    open_file: Option<File>,
    is_broken: bool,
}

impl SystemFiles<'_> {
    /// Returns the files of the system, of which none is open.
    pub fn new(rt: &HostRuntime) -> SystemFiles<'_>
        ensures works { result.is_broken ≡ false }
        ensures closed { is_some result.open_file ≡ false }
    {
        SystemFiles {
            rt,
            open_file: None,
            is_broken: false,
        }
    }
}

impl FileStore for SystemFiles<'_> {
    ghost bytes_of = { λ _ _. unknown };

    ghost left = { λ _. unknown };

    ghost has_failed = { λ s. s.is_broken };

    ghost is_open = { λ s. is_some s.open_file };

    fn open(&mut self, file: &str) -> io::Result<()> {
        match File::open(self.rt, file) {
            Ok(opened) => {
                self.open_file = Some(opened);
                Ok(())
            }
            Err(error) => {
                self.is_broken = true;
                Err(error)
            }
        }
    }

    fn read(&mut self, buf: &mut [u8]) -> io::Result<usize> {
        let outcome = match &mut self.open_file {
            Some(file) => file.read(buf),
            None => Ok(0),
        };
        self.is_broken = outcome.is_err();
        outcome
    }

    fn refuse(&mut self) {
        self.is_broken = true;
    }

    fn close(&mut self) {
        self.open_file = None;
    }
}
