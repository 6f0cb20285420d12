//! Words and inputs, with the status and the output that they have.

ghost use Rattle.std.specs.Prelude.{IfOk};
ghost use Rattle.voevent_cli.specs.Racks.{IsWhole, disks};

use std::alloc::Global;
use std::process::Abort;
use std::test::Fail;
use voe_disk::{MemoryRack, Rack};
use voe_outside::{MemorySink, MemorySource};
use voe_values::{Bytes, NoMemory, Text};
use voevent_cli::offline;

/// A call of the program: its words, its input, and how its source and its sink behave.
#[derive(Drop)]
pub struct Call<'a> {
    pub words: &'a [&'a str],
    pub input: &'a [u8],
    pub piece: usize,
    pub read_fails: &'a [u8],
    pub write_fails: &'a [u8],
}

impl<'a> Call<'a> {
    /// The command `net` on this text, in pieces of so many bytes, with no fault.
    pub fn net(input: &'a [u8], piece: usize) -> Call<'a> {
        Call {
            words: &["net"],
            input,
            piece,
            read_fails: &[],
            write_fails: &[],
        }
    }
}

/// A rack none of whose disks is lent out.
pub fn whole_rack(alloc: Global) -> Result<MemoryRack, NoMemory>
    ensures { IfOk result (λ rack. IsWhole (disks (λ k. ⟦<MemoryRack as Rack>⟧.trial rack k) (⟦<MemoryRack as Rack>⟧.real rack))) }
{
    let rack = MemoryRack::new(alloc)?;
    Ok(rack)
}

pub fn failed(_: NoMemory) -> Fail {
    Fail::from("no memory")
}

/// Makes the call over these disks, and checks its status and all that it wrote. Gives the source as the call left it.
pub fn run_over(
    rt: &(impl Abort + AllocGlobal),
    rack: &mut MemoryRack,
    call: &Call<'_>,
    status: u8,
    output: &str,
) -> Result<MemorySource, Fail>
    requires { IsWhole (disks (λ k. ⟦<MemoryRack as Rack>⟧.trial rack.old k) (⟦<MemoryRack as Rack>⟧.real rack.old)) }
    ensures { IsWhole (disks (λ k. ⟦<MemoryRack as Rack>⟧.trial rack.new k) (⟦<MemoryRack as Rack>⟧.real rack.new)) }
{
    let alloc = rt.alloc();
    assert!(rt; call.piece > 0);
    let mut words = Vec::new(alloc);
    for word in call.words {
        words.push(Text::of(alloc, word).map_err(failed)?)?;
    }
    let mut source = MemorySource::new(
        Bytes::of(alloc, call.input).map_err(failed)?,
        call.piece,
        Bytes::of(alloc, call.read_fails).map_err(failed)?,
    );
    let mut sink = MemorySink::new(
        alloc,
        call.piece,
        Bytes::of(alloc, call.write_fails).map_err(failed)?,
    );
    let answer = offline(alloc, words.as_slice(), &mut source, &mut sink, rack);
    assert_eq!(rt; answer, status, "status");
    assert!(rt; sink.held() == output.as_bytes());
    Ok(source)
}

/// Makes the call over new disks, and checks its status and all that it wrote. Gives the source as the call left it.
pub fn run(
    rt: &(impl Abort + AllocGlobal),
    call: &Call<'_>,
    status: u8,
    output: &str,
) -> Result<MemorySource, Fail> {
    let mut rack = whole_rack(rt.alloc()).map_err(failed)?;
    run_over(rt, &mut rack, call, status, output)
}

/// Makes the call over new disks, and checks its status and all that it wrote.
pub fn check(
    rt: &(impl Abort + AllocGlobal),
    call: &Call<'_>,
    status: u8,
    output: &str,
) -> Result<(), Fail> {
    run(rt, call, status, output)?;
    Ok(())
}
