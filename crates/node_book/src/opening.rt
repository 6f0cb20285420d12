//! The notes of a journal.

ghost use Rattle.std.specs.Prelude.{◌≡◌, true, IfOk, IfErr};
ghost use Rattle.node_book.specs.Records.{IsTold, IsReadRefusal};

use crate::fault::BookFault;
use crate::records::Records;
use gate_journal::Journal;
use node_notes::{ReadFault, read_config};
use std::alloc::Global;
use voe_disk::Disk;

/// The configuration and the notes that a journal tells.
pub fn read_records<D: Disk>(alloc: Global, journal: &Journal<D>) -> Result<Records, BookFault>
    ensures told { IfOk result (IsTold journal.now.payloads) }
    ensures refused { IfErr result (λ fault. IsReadRefusal fault journal.now.payloads) }
{
    let Some(first) = journal.payload(0) else {
        return Err(BookFault::Unmade);
    };
    let config = match read_config(alloc, first) {
        Ok(config) => config,
        Err(ReadFault::Malformed) => return Err(BookFault::BadNote { place: 16 }),
        Err(ReadFault::NoMemory) => return Err(BookFault::NoMemory),
    };
    let mut records = Records::new(alloc, config)?;
    for at in 1..journal.payloads() {
        let Some(payload) = journal.payload(at) else {
            unreachable!()
        };
        match records.add_payload(alloc, payload) {
            Ok(()) => {}
            Err(ReadFault::Malformed) => {
                let Some(place) = journal.place(at) else {
                    unreachable!()
                };
                return Err(BookFault::BadNote { place });
            }
            Err(ReadFault::NoMemory) => return Err(BookFault::NoMemory),
        }
    }
    Ok(records)
}
