//! The text as it grows, and its characters.

ghost use Rattle.std.specs.Prelude.{◌≡◌, ◌+◌, ◌<◌, ◌≤◌, ◌||◌, ◌++◌, [], nat_lt, true, false, IfErr, IfOk, IsTrue, OnOk, codes, length, slice_index};
ghost use Rattle.std.specs.List.{prefix_len};
ghost use Rattle.xml_lexer.specs.Phases.{max_tokens};
ghost use Rattle.xml_lexer.specs.Token.{end};
ghost use Rattle.voe_tree.specs.Canonical.{all_written, is_escaped, is_escaped_in_value, max_bytes, reference_to, text_tokens, written, written_value};
ghost use Rattle.voe_tree.specs.Writing.{are_few, is_run_byte, is_value_run_byte, run_tokens};
ghost use Rattle.voe_tree.specs.declared.write.WriteFault.TheVariants.{TooLarge};

use super::{MAX_BYTES, MAX_TOKENS, WriteFault};
use std::alloc::Global;
use voe_values::{Bytes, NoMemory};

/// XML as it is written, token by token. A token's pieces are put one after another, and its last piece finishes it.
/// After want of memory some of a piece may stand.
#[derive(Drop)]
pub struct Writer {
    /// What is written so far.
    pub bytes: Vec<u8>,
    /// How many tokens it has.
    pub tokens: usize,
    ghost few: { tokens ≤ length bytes.items },
}

fn is_escaped(byte: u8) -> bool
    ensures { result ≡ is_escaped byte }
{
    matches!(byte, b'&' | b'<' | b'>' | b'\r')
}

fn is_escaped_in_value(byte: u8) -> bool
    ensures { result ≡ is_escaped_in_value byte }
{
    matches!(byte, b'&' | b'<' | b'"' | b'\t' | b'\n' | b'\r')
}

fn reference_to(byte: u8) -> &'static [u8]
    ensures value { result.now ≡ reference_to byte }
    ensures some { 0 < length result.now }
{
    match byte {
        b'&' => b"&amp;",
        b'<' => b"&lt;",
        b'>' => b"&gt;",
        b'"' => b"&quot;",
        b'\t' => b"&#9;",
        b'\n' => b"&#10;",
        _ => b"&#13;",
    }
}

/// How many bytes at the front of a text are not escaped.
fn text_run_len(text: &[u8]) -> usize
    ensures value { result ≡ prefix_len is_run_byte text.now }
    ensures within { result ≤ length text.now }
    ensures stops { result < length text.now → is_escaped (slice_index text.now result) ≡ true }
{
    let mut len = 0;
    while len < text.len() && !is_escaped(text[len]) {
        len += 1;
    }
    len
}

/// The front of a text that is not escaped, and what comes behind it.
fn text_run(text: &[u8]) -> (&[u8], &[u8])
    ensures reads { text_tokens text.now ≡ run_tokens result.0.now ++ text_tokens result.1.now }
    ensures stops { 0 < length result.1.now → is_escaped (slice_index result.1.now 0) ≡ true }
    ensures less { length result.1.now ≤ length text.now }
{
    text.split_at(text_run_len(text))
}

/// How many bytes at the front of a value are not escaped.
fn value_run_len(value: &[u8]) -> usize
    ensures value { result ≡ prefix_len is_value_run_byte value.now }
    ensures within { result ≤ length value.now }
    ensures stops { result < length value.now → is_escaped_in_value (slice_index value.now result) ≡ true }
{
    let mut len = 0;
    while len < value.len() && !is_escaped_in_value(value[len]) {
        len += 1;
    }
    len
}

/// The front of a value that is not escaped, and what comes behind it.
fn value_run(value: &[u8]) -> (&[u8], &[u8])
    ensures reads { written_value value.now ≡ result.0.now ++ written_value result.1.now }
    ensures stops { 0 < length result.1.now → is_escaped_in_value (slice_index result.1.now 0) ≡ true }
    ensures less { length result.1.now ≤ length value.now }
{
    value.split_at(value_run_len(value))
}

impl Writer {
    /// Nothing written yet. It takes no memory.
    pub fn new(alloc: Global) -> Writer
        ensures bytes { result.bytes.items ≡ [] }
        ensures tokens { result.tokens ≡ 0 }
    {
        Writer {
            bytes: Vec::new(alloc),
            tokens: 0,
        }
    }

    /// The bytes as they stand.
    pub fn into_bytes(self) -> Bytes
        ensures { result ≡ self.bytes.items }
    {
        Bytes::from_vec(self.bytes)
    }

    /// The bytes, where they and their tokens are few enough to be read; else `TooLarge`.
    pub fn finished(self) -> Result<Bytes, WriteFault>
        ensures few { IfOk result (λ bytes. (bytes ≡ self.bytes.items) × IsTrue (are_few (length self.bytes.items) self.tokens)) }
        ensures many { IfErr result (λ fault. (fault ≡ TooLarge) × (are_few (length self.bytes.items) self.tokens ≡ false)) }
    {
        if self.is_full() {
            return Err(WriteFault::TooLarge);
        }
        Ok(self.into_bytes())
    }

    /// Whether it is too large to be read: more than 1,048,576 bytes or 65,536 tokens.
    pub fn is_full(&self) -> bool
        ensures { result ≡ (nat_lt max_bytes (length self.now.bytes.items) || nat_lt max_tokens self.now.tokens) }
    {
        self.bytes.len() > MAX_BYTES || self.tokens > MAX_TOKENS
    }

    /// Adds a piece of a token.
    pub fn put(&mut self, piece: &[u8]) -> Result<(), NoMemory>
        ensures bytes { OnOk result (self.new.bytes.items ≡ self.old.bytes.items ++ piece.now) }
        ensures tokens { OnOk result (self.new.tokens ≡ self.old.tokens) }
    {
        self.bytes.extend_from_slice(piece)?;
        Ok(())
    }

    /// Adds the end of a token, which is not empty, or all of one.
    pub fn finish(&mut self, piece: &[u8]) -> Result<(), NoMemory>
        requires { 0 < length piece.now }
        ensures bytes { OnOk result (self.new.bytes.items ≡ self.old.bytes.items ++ piece.now) }
        ensures tokens { OnOk result (self.new.tokens ≡ self.old.tokens + 1) }
    {
        self.bytes.extend_from_slice(piece)?;
        self.tokens += 1;
        Ok(())
    }

    /// Adds `="`, a value as it is written, and `"`: in it `&`, `<`, `"`, TAB, LF and CR are references.
    pub fn value(&mut self, value: &[u8]) -> Result<(), NoMemory>
        ensures bytes { OnOk result (self.new.bytes.items ≡ self.old.bytes.items ++ codes "=\"" ++ written_value value.now ++ codes "\"") }
        ensures tokens { OnOk result (self.new.tokens ≡ self.old.tokens) }
    {
        self.put(b"=\"")?;
        self.escaped(value)?;
        self.put(b"\"")
    }

    fn escaped(&mut self, value: &[u8]) -> Result<(), NoMemory>
        ensures bytes { OnOk result (self.new.bytes.items ≡ self.old.bytes.items ++ written_value value.now) }
        ensures tokens { OnOk result (self.new.tokens ≡ self.old.tokens) }
    {
        let (run, mut rest) = value_run(value);
        self.put(run)?;
        while let Some((special, left)) = rest.split_first() {
            self.put(reference_to(*special))?;
            let (run, behind) = value_run(left);
            self.put(run)?;
            rest = behind;
        }
        Ok(())
    }

    /// Adds the tokens of a text: `&`, `<`, `>` and CR are references.
    pub fn text(&mut self, text: &[u8]) -> Result<(), NoMemory>
        ensures bytes { OnOk result (self.new.bytes.items ≡ self.old.bytes.items ++ all_written (text_tokens text.now)) }
        ensures tokens { OnOk result (self.new.tokens ≡ self.old.tokens + length (text_tokens text.now)) }
    {
        let (run, mut rest) = text_run(text);
        self.run(run)?;
        while let Some((special, left)) = rest.split_first() {
            self.finish(reference_to(*special))?;
            let (run, behind) = text_run(left);
            self.run(run)?;
            rest = behind;
        }
        Ok(())
    }

    fn run(&mut self, run: &[u8]) -> Result<(), NoMemory>
        ensures bytes { OnOk result (self.new.bytes.items ≡ self.old.bytes.items ++ all_written (run_tokens run.now)) }
        ensures tokens { OnOk result (self.new.tokens ≡ self.old.tokens + length (run_tokens run.now)) }
    {
        if run.is_empty() {
            return Ok(());
        }
        self.finish(run)
    }

    /// Adds an end tag.
    pub fn end_tag(&mut self, name: &str) -> Result<(), NoMemory>
        ensures bytes { OnOk result (self.new.bytes.items ≡ self.old.bytes.items ++ written (end name.now)) }
        ensures tokens { OnOk result (self.new.tokens ≡ self.old.tokens + 1) }
    {
        self.put(b"</")?;
        self.put(name.as_bytes())?;
        self.finish(b">")
    }
}
