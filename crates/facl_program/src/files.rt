//! The texts that are loaded before the script, each read from its file.

ghost use Rattle.std.specs.Prelude.{◌≡◌, ◌≢◌, false, true, IfOk, IfErr, OnOk, Some, option_map, string_bytes, vec_items, if◌then◌else◌};
ghost use Rattle.std.specs.IoError.{error_kind};
ghost use Rattle.facl_program.specs.declared.fault.ProgramFault.{ProgramFault};
ghost use Rattle.facl_program.specs.declared.files.Unread.{Unread};
ghost use Rattle.facl_program.specs.Words.{names_of};
ghost use Rattle.facl_program.specs.Lines.{ran_out_of_memory};
ghost use Rattle.facl_program.specs.FileStores.{HasNoText, IsText};
ghost use Rattle.facl_program.specs.Files.{AreTextsOf, IsFirstUnread, IsTextOf, IsUnread, file_limit, setup_texts, texts_of};

use crate::args::Files;
use crate::fault::ProgramFault;
use crate::file_store::FileStore;
use facl::Setup;
use std::alloc::{AllocError, Global};
use std::io;
use std::io::ErrorKind;

/// The greatest number of bytes of a file that is loaded.
const FILE_LIMIT: usize = 268_435_456;

/// How many bytes are read at once.
const CHUNK: usize = 65_536;

/// Why there is no text of a file.
enum Unread {
    /// It cannot be opened or read, or has more bytes than the limit.
    NoText,
    /// Memory ran out.
    NoMemory,
}

impl From<AllocError> for Unread {
    ghost from_gives = { λ _ why. why ≡ Unread.NoMemory };

    fn from(_: AllocError) -> Unread {
        Unread::NoMemory
    }
}

/// Makes `NoMemory` of the system's error that it ran out of memory, and `NoText` of every other one.
impl From<io::Error> for Unread {
    ghost from_gives = { λ error why. why ≡ (if ran_out_of_memory (error_kind error) then Unread.NoMemory else Unread.NoText) };

    fn from(error: io::Error) -> Unread {
        match error.kind() {
            ErrorKind::OutOfMemory => Unread::NoMemory,
            _ => Unread::NoText,
        }
    }
}

/// The texts that are loaded before the script.
#[derive(Drop)]
pub(crate) struct Texts {
    passwd: Option<Vec<u8>>,
    group: Option<Vec<u8>>,
    dump: Option<Vec<u8>>,
}

impl Texts {
    /// Borrows the texts as what the run loads first.
    pub fn setup(&self) -> Setup<'_>
        ensures { setup_texts result ≡ texts_of self.now }
    {
        Setup {
            passwd: self.passwd.as_ref().map(Vec::as_slice),
            group: self.group.as_ref().map(Vec::as_slice),
            dump: self.dump.as_ref().map(Vec::as_slice),
        }
    }
}

/// Reads all that is left of the open file. Past the limit one byte is read.
fn read_within<S: FileStore>(alloc: Global, store: &mut S) -> Result<Vec<u8>, Unread>
    requires works { S.has_failed store.old ≡ false }
    requires open { S.is_open store.old ≡ true }
    ensures ok { IfOk result (λ text. IsText file_limit (S.left store.old) text.items) }
    ensures works { OnOk result (S.has_failed store.new ≡ false) }
    ensures err { IfErr result (λ why. why ≢ Unread.NoMemory → HasNoText file_limit (S.left store.old)) }
    ensures failed { IfErr result (λ why. why ≢ Unread.NoMemory → S.has_failed store.new ≡ true) }
    ensures same { S.bytes_of store.new ≡ S.bytes_of store.old }
{
    let mut text = Vec::new(alloc);
    let mut chunk = [0; CHUNK];
    loop {
        let room = CHUNK.min(FILE_LIMIT + 1 - text.len());
        let count = store.read(&mut chunk[..room])?;
        if count == 0 {
            return Ok(text);
        }
        if text.len() + count > FILE_LIMIT {
            store.refuse();
            return Err(Unread::NoText);
        }
        text.extend_from_slice(&chunk[..count])?;
    }
}

/// Reads all of a file, and closes it. If the program is started with a closed standard input, the system gives its
/// descriptor to the file, and the script must not be read from there.
fn read_file<S: FileStore>(alloc: Global, store: &mut S, file: &str) -> Result<Vec<u8>, Unread>
    requires works { S.has_failed store.old ≡ false }
    requires closed { S.is_open store.old ≡ false }
    ensures ok { IfOk result (λ text. IsText file_limit (S.bytes_of store.old file.now) text.items) }
    ensures works { OnOk result (S.has_failed store.new ≡ false) }
    ensures err { IfErr result (λ why. why ≢ Unread.NoMemory → HasNoText file_limit (S.bytes_of store.old file.now)) }
    ensures failed { IfErr result (λ why. why ≢ Unread.NoMemory → S.has_failed store.new ≡ true) }
    ensures closed { S.is_open store.new ≡ false }
    ensures same { S.bytes_of store.new ≡ S.bytes_of store.old }
{
    store.open(file)?;
    let text = read_within(alloc, store);
    store.close();
    text
}

/// Reads the text of a file, if one is given. If it has none, the fault names the file, unless memory ran out.
fn read_given<S: FileStore>(
    alloc: Global,
    store: &mut S,
    file: Option<String>,
) -> Result<Option<Vec<u8>>, ProgramFault>
    requires works { S.has_failed store.old ≡ false }
    requires closed { S.is_open store.old ≡ false }
    ensures ok { IfOk result (λ text.
        IsTextOf (S.bytes_of store.old) (option_map string_bytes file) (option_map vec_items text)) }
    ensures works { OnOk result (S.has_failed store.new ≡ false) }
    ensures err { IfErr result (λ fault. IsUnread (S.bytes_of store.old) fault (option_map string_bytes file)) }
    ensures failed { IfErr result (λ fault. fault ≢ ProgramFault.NoMemory → S.has_failed store.new ≡ true) }
    ensures closed { S.is_open store.new ≡ false }
    ensures same { S.bytes_of store.new ≡ S.bytes_of store.old }
{
    let Some(file) = file else {
        return Ok(None);
    };
    match read_file(alloc, store, &file) {
        Ok(text) => Ok(Some(text)),
        Err(Unread::NoText) => Err(ProgramFault::CannotRead { file }),
        Err(Unread::NoMemory) => Err(ProgramFault::NoMemory),
    }
}

/// Reads the texts of the files of users, of groups and of a dump, each if it is given, in this order. Each is closed
/// before the next one is opened. The fault is that of the first file that has no text; after it none is opened.
pub(crate) fn read_texts<S: FileStore>(
    alloc: Global,
    store: &mut S,
    files: Files,
) -> Result<Texts, ProgramFault>
    requires works { S.has_failed store.old ≡ false }
    requires closed { S.is_open store.old ≡ false }
    ensures ok { IfOk result (λ texts. AreTextsOf (S.bytes_of store.old) (names_of files) (texts_of texts)) }
    ensures err { IfErr result (λ fault. IsFirstUnread (S.bytes_of store.old) fault (names_of files)) }
    ensures failed { IfErr result (λ fault. fault ≢ ProgramFault.NoMemory → S.has_failed store.new ≡ true) }
    ensures closed { S.is_open store.new ≡ false }
{
    let passwd = read_given(alloc, store, files.passwd)?;
    let group = read_given(alloc, store, files.group)?;
    let dump = read_given(alloc, store, files.dump)?;
    Ok(Texts {
        passwd,
        group,
        dump,
    })
}
