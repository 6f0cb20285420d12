//! The program: makes the real objects, calls the top call, and ends with its status.
#![tactic(auto)]

ghost use Rattle.std.specs.Prelude.{IfOk};
ghost use Rattle.voevent_cli.specs.Racks.{IsWhole, disks};

use std::env::{self, Env};
use std::io::ErrorKind;
use std::process::ExitCode;
use voe_disk::Rack;
use voe_outside_real::{FileRack, Reading, Writing};
use voe_values::{NoMemory, Text};
use voevent_cli::offline;

/// The exit status for want of memory.
const NO_MEMORY: u8 = 7;

/// The journal of a node, in the working folder.
const JOURNAL: &str = "voevent.journal";

/// The words behind the program's name. Where one of them isn't UTF-8 there are none, which is no command either.
fn words_of(rt: &(impl Env + AllocGlobal)) -> Result<Vec<Text>, NoMemory> {
    let mut words = Vec::new(rt.alloc());
    match env::args(rt) {
        Ok(args) => {
            for word in args.skip(1) {
                words.push(Text::from_string(word))?;
            }
        }
        Err(e) if e.kind() == ErrorKind::OutOfMemory => return Err(NoMemory),
        Err(_) => {}
    }
    Ok(words)
}

/// The disks: sixty-four in memory, and the journal's file.
fn rack_of(rt: HostRuntime) -> Result<FileRack<HostRuntime>, NoMemory>
    ensures { IfOk result (λ rack. IsWhole (disks (λ k. ⟦<FileRack<HostRuntime> as Rack>⟧.trial rack k) (⟦<FileRack<HostRuntime> as Rack>⟧.real rack))) }
{
    let rack = FileRack::new(rt, rt.alloc(), Text::of(rt.alloc(), JOURNAL)?)?;
    Ok(rack)
}

fn main(rt: HostRuntime) -> ExitCode {
    let Ok(words) = words_of(&rt) else {
        return ExitCode::from(NO_MEMORY);
    };
    let Ok(mut rack) = rack_of(rt) else {
        return ExitCode::from(NO_MEMORY);
    };
    let mut source = Reading::new(rt.stdin());
    let mut sink = Writing::new(rt.stdout());
    ExitCode::from(offline(
        rt.alloc(),
        words.as_slice(),
        &mut source,
        &mut sink,
        &mut rack,
    ))
}
