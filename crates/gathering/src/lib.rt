// The records of the outstanding segments, gathered from the lent table by the words of the block, and put back.
#![tactic(auto)]

ghost use Rattle.std.specs.Prelude.{◌≡◌, ◌<◌, ◌≤◌, ◌%◌, min, length, get_or, replicate, take};
ghost use Rattle.protocol.specs.Protocol.{send_slots};
ghost use Rattle.records.specs.Tables.{blank, slots_in, gathered, padded, scattered};
ghost use Rattle.checking.specs.Tests.{flight_fits};
ghost use Rattle.gathering.specs.Reach.{reach};

use checking::flights;
use control::Flight;
use protocol::Settings;
use timing::Record;

// The slot of a word.
fn slot_of(word: u32) -> usize
    ensures { result ≡ word % 256 }
{
    (word % 256) as usize
}

// Where the record of a word is read: its slot, or past every table for a slot that no link has.
fn reach(word: u32) -> usize
    ensures { result ≡ reach word }
{
    let slot = slot_of(word);
    if slot < 128 { slot } else { usize::MAX }
}

// The records at the slots of the first n words, in their order, into an array that holds blank ones. Of the table the first 128
// records are read.
pub fn gather(table: &[Record], words: &[u32; 32], n: usize, records: &mut [Record; 32])
    requires { (length words.now ≡ 32) × (records.old ≡ replicate 32 blank) }
    ensures { (length records.new ≡ 32)
        × (records.new ≡ padded (gathered (take send_slots table.now) (slots_in words.now n))) }
{
    let count = n.min(32);
    for i in 0..count {
        let word = words[i];
        let slot = reach(word);
        let found = records::read(table, slot);
        records[i] = found;
    }
}

// Whether the records of the outstanding segments fit (13), in one pass over them where they stand. Of the table the first 128 records
// are read.
pub fn fit(table: &[Record], words: &[u32; 32], settings: Settings, flight: Flight) -> bool
    requires { length words.now ≡ 32 }
    ensures { result ≡ flight_fits settings.mode flight.una flight.next (take flight.outstanding
        (padded (gathered (take send_slots table.now) (slots_in words.now flight.outstanding)))) }
{
    let mut carried = Some(0);
    for word in &words[..flight.outstanding.min(32)] {
        let found = records::read(table, reach(*word));
        carried = flights::carry(carried, found, settings, flight);
    }
    flights::flown(carried, flight)
}

// Each record is stored at the slot of its word, in their order; no other record of the table changes.
pub fn scatter(table: &mut [Record], words: &[u32; 32], n: usize, records: &[Record; 32])
    requires { (length words.now ≡ 32) × (length records.now ≡ 32) }
    ensures { table.new
        ≡ scattered table.old (slots_in words.now n) records.now }
{
    let count = n.min(32);
    for i in 0..count {
        let word = words[i];
        let slot = slot_of(word);
        let updated = records[i];
        records::replace(table, slot, updated);
    }
}
