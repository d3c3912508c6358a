//! The message of a line for which memory ran out, made in room that was reserved for it.

ghost use Rattle.std.specs.Prelude.{◌≡◌, [], IfOk};
ghost use Rattle.facl_output.specs.Messages.{message};
ghost use Rattle.facl_output.specs.declared.fault.LineFault.TheVariants.{NoMemory};

use itoa::Buffer;
use std::alloc::{AllocError, Global};
use std::marker::Model;

/// At least as many bytes as any `no memory` message has.
const ROOM: usize = 64;

/// Room for one message, taken beforehand.
#[derive(Drop)]
pub struct ReservedMessage {
    bytes: Vec<u8>,
}

impl Model for ReservedMessage {
    ghost use Rattle.std.specs.Prelude.{List, ℕ, ◌≤◌, vec_capacity};
    ghost use Rattle.facl_output.specs.declared.reserved_message.TheConstants.{ROOM};

    ghost Value = { List ℕ };

    ghost view = { λ s. s.bytes.items };

    ghost invariant = { λ s. ROOM ≤ vec_capacity s.bytes };
}

impl ReservedMessage {
    /// Reserves room, with no message in it.
    pub fn new(alloc: Global) -> Result<ReservedMessage, AllocError>
        ensures { IfOk result (λ reserved_message. reserved_message ≡ []) }
    {
        Ok(ReservedMessage {
            bytes: Vec::with_capacity(alloc, ROOM)?,
        })
    }

    /// Replaces the message by the one that memory ran out for the line with this number, whatever memory there is.
    pub fn put_no_memory(&mut self, number: u64)
        ensures { self.new ≡ message number [] NoMemory }
    {
        let mut buffer = Buffer::new();
        self.bytes.clear();
        self.bytes.extend_from_slice(b"line ").unwrap();
        self.bytes
            .extend_from_slice(buffer.format(number).as_bytes())
            .unwrap();
        self.bytes
            .extend_from_slice(b": facl: no memory\n")
            .unwrap();
    }

    /// Returns the message that was put last, and nothing before the first.
    pub fn as_bytes(&self) -> &[u8]
        ensures { result.now ≡ self.now }
    {
        &self.bytes
    }
}
