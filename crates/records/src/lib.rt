// The lent table of records, one for each send slot: its length, and one record read or replaced; and no record yet, for those of the
// outstanding segments.
#![tactic(auto)]

ghost use Rattle.std.specs.Prelude.{◌≡◌, length, get_or, set, replicate};
ghost use Rattle.records.specs.Tables.{blank};

use timing::Record;

// No record yet: 32 blank ones.
pub fn none() -> [Record; 32]
    ensures { result ≡ replicate 32 blank }
{
    [Record::default(); 32]
}

// How many records the table has.
pub fn table_len(table: &[Record]) -> usize
    ensures { result ≡ length table.now }
{
    table.len()
}

// The record at a slot; a blank one past the table's end.
pub fn read(table: &[Record], slot: usize) -> Record
    ensures { result ≡ get_or table.now slot blank }
{
    table.get(slot).copied().unwrap_or_default()
}

// The record at a slot is replaced; past the table's end nothing changes.
pub fn replace(table: &mut [Record], slot: usize, updated: Record)
    ensures { table.new ≡ set table.old slot updated }
{
    // Tried as `get_mut`: its contract says nothing of the table after a store through it.
    if slot < table.len() {
        table[slot] = updated;
    }
}
