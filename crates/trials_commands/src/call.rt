//! A call of the program.

ghost use Rattle.std.specs.Prelude.{IfOk};
ghost use Rattle.voevent_cli.specs.Racks.{IsWhole, disks};

use std::alloc::Global;
use std::process::Abort;
use std::test::Fail;
use voe_disk::{MemoryRack, Rack};
use voe_outside::{MemorySink, MemorySource};
use voe_values::{Bytes, NoMemory, Text};
use voevent_cli::offline;

/// The words and the input of a call, and how its source and its sink behave.
#[derive(Clone, Copy)]
pub struct Call<'a> {
    pub words: &'a [&'a str],
    pub input: &'a [u8],
    /// The most that a read or a write takes.
    pub piece: usize,
    pub read_fails: &'a [u8],
    pub write_fails: &'a [u8],
}

/// A rack none of whose disks is lent out.
fn whole_rack(alloc: Global) -> Result<MemoryRack, NoMemory>
    ensures { IfOk result (λ rack. IsWhole (disks (λ k. ⟦<MemoryRack as Rack>⟧.trial rack k) (⟦<MemoryRack as Rack>⟧.real rack))) }
{
    let rack = MemoryRack::new(alloc)?;
    Ok(rack)
}

fn failed(_: NoMemory) -> Fail {
    Fail::from("no memory")
}

/// Makes the call, and checks its status and all that it wrote. Gives the source as the call left it.
pub fn run(
    rt: &(impl Abort + AllocGlobal),
    call: &Call<'_>,
    status: u8,
    output: &str,
) -> Result<MemorySource, Fail> {
    let alloc = rt.alloc();
    assert!(rt; call.piece > 0);
    let mut words = Vec::new(alloc);
    for word in call.words {
        words.push(Text::of(alloc, word).map_err(failed)?)?;
    }
    let mut source = MemorySource::new(
        Bytes::of(alloc, call.input).map_err(failed)?,
        call.piece,
        Bytes::of(alloc, call.read_fails).map_err(failed)?,
    );
    let mut sink = MemorySink::new(
        alloc,
        call.piece,
        Bytes::of(alloc, call.write_fails).map_err(failed)?,
    );
    let mut rack = whole_rack(alloc).map_err(failed)?;
    let answer = offline(alloc, words.as_slice(), &mut source, &mut sink, &mut rack);
    assert_eq!(rt; answer, status, "status");
    assert!(rt; sink.held() == output.as_bytes());
    Ok(source)
}

/// Makes the call of one word on this input without faults, in small pieces and in one.
pub fn check(
    rt: &(impl Abort + AllocGlobal),
    word: &str,
    input: &[u8],
    status: u8,
    output: &str,
) -> Result<(), Fail> {
    for piece in [7, 1_000_000] {
        let call = Call {
            words: &[word],
            input,
            piece,
            read_fails: &[],
            write_fails: &[],
        };
        run(rt, &call, status, output)?;
    }
    Ok(())
}
