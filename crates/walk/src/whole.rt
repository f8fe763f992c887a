// Reading all the records of a file.
ghost use Rattle.std.specs.Prelude.{◌≡◌};
ghost use Rattle.records.specs.Kinds.{fault_listed};
ghost use Rattle.records.specs.Records.{entries_from, reading};
ghost use Rattle.std.specs.Result.{result_map_both};

use records::{ReadFault, record_at};

// Reads the records from the first byte to the last: nothing is said of a good file, and of another the fault of its
// first bad record.
pub fn read_records(bytes: &[u8]) -> Result<(), ReadFault>
    ensures { result_map_both (λ _. entries_from bytes.now 0) fault_listed result ≡ reading bytes.now }
{
    // A loop with an offset, and guards: the iterator over the records does not tell why it ended, and each fault is told here, where it is.
    let mut offset = 0;
    let mut before = None;
    while offset < bytes.len() {
        let record = record_at(bytes, offset)?;
        if !record.kind.may_follow(before) {
            return Err(ReadFault::OutOfOrder(offset));
        }
        before = Some(record.kind);
        offset = record.end();
    }
    if before.is_none() {
        return Err(ReadFault::OutOfOrder(offset));
    }
    Ok(())
}
