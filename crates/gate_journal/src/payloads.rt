//! The payloads of a journal in memory, as the bytes of its front.

ghost use Rattle.std.specs.Prelude.{◌≡◌, ◌↔◌, ◌+◌, ◌^◌, ◌<◌, ◌≤◌, [], ◌∷◌, ◌++◌, length, take, slice_get, IfOk, IfSome, IsSome, IsTrue, OnOk};
ghost use Rattle.std.specs.Option.{option_map};
ghost use Rattle.gate_journal.specs.Format.{front, header};
ghost use Rattle.gate_journal.specs.Entries.{payloads_at, are_chained};

use crate::entry::{Entry, length_of};
use crate::gate::OPEN;
use crate::reading::HEADER;
use crate::room::{extend_within, push_within};
use std::alloc::{AllocError, Global};

/// The front of a journal, up to its closed gate, and where the entries stand in it.
#[derive(Drop)]
pub struct Payloads {
    bytes: Vec<u8>,
    entries: Vec<Entry>,
    ghost spelled: { bytes.items ≡ front (payloads_at bytes.items entries.items) },
    ghost chained: { IsTrue (are_chained 16 entries.items (length bytes.items)) },
}

impl Payloads {
    ghost use Rattle.gate_journal.specs.Payloads.{payloads_in, HasPlaceFor};

    /// No payload.
    pub fn new(alloc: Global) -> Result<Self, AllocError>
        ensures { IfOk result (λ made. payloads_in made ≡ []) }
    {
        Ok(Payloads {
            bytes: HEADER.to_vec(alloc)?,
            entries: Vec::new(alloc),
        })
    }

    /// The payloads of a front, whose entries these are.
    pub fn of(bytes: Vec<u8>, entries: Vec<Entry>) -> Self
        requires spelled { bytes.items ≡ front (payloads_at bytes.items entries.items) }
        requires chained { IsTrue (are_chained 16 entries.items (length bytes.items)) }
        ensures { payloads_in result ≡ payloads_at bytes.items entries.items }
    {
        Payloads { bytes, entries }
    }

    pub fn len(&self) -> usize
        ensures { result ≡ length (payloads_in self.now) }
    {
        self.entries.len()
    }

    /// The place of the closed gate.
    pub fn end(&self) -> u64
        ensures place { result ≡ length (front (payloads_in self.now)) }
        ensures small { result < 2 ^ 63 }
    {
        self.bytes.len() as u64
    }

    pub fn get(&self, at: usize) -> Option<&[u8]>
        ensures { option_map (λ payload. payload.now) result ≡ slice_get (payloads_in self.now) at }
    {
        let entry = self.entries.get(at)?;
        let start = entry.gate + 5;
        Some(&self.bytes[start..start + entry.count])
    }

    /// The place of a payload's gate.
    pub fn place(&self, at: usize) -> Option<u64>
        ensures place { IfSome result (λ place. place ≡ length (front (take at (payloads_in self.now)))) }
        ensures within { IsSome result ↔ (at < length (payloads_in self.now)) }
    {
        let entry = self.entries.get(at)?;
        Some(entry.gate as u64)
    }

    /// Makes room for one payload of so many bytes.
    pub fn reserve(&mut self, count: usize) -> Result<(), AllocError>
        requires { count < 2 ^ 32 }
        ensures same { payloads_in self.new ≡ payloads_in self.old }
        ensures room { OnOk result (HasPlaceFor count self.new) }
    {
        self.entries.reserve(1)?;
        self.bytes.reserve(count + 5)
    }

    /// Adds a payload, for which room was made.
    pub fn push(&mut self, payload: &[u8])
        requires short { length payload.now < 2 ^ 32 }
        requires room { HasPlaceFor (length payload.now) self.old }
        ensures { payloads_in self.new ≡ payloads_in self.old ++ payload.now ∷ [] }
    {
        let entry = Entry {
            gate: self.bytes.len(),
            count: payload.len(),
        };
        push_within(&mut self.bytes, OPEN);
        extend_within(&mut self.bytes, &length_of(payload));
        extend_within(&mut self.bytes, payload);
        push_within(&mut self.entries, entry);
    }
}
