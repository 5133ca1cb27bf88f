// A plain list of entries in the order in which they were kept, each with its holder and its record.
use cases::parts;

// The most entries, and bytes of a record.
const ENTRIES: usize = 128;

const RECORD: usize = 61;

// An entry, and how many bytes its record has.
#[derive(Clone, Copy)]
struct Entry {
    holder: u16,
    size: usize,
    bytes: [u8; RECORD],
}

impl Entry {
    // The record.
    fn record(&self) -> &[u8] {
        parts::front(&self.bytes, self.size)
    }
}

// The entries, and how many have been kept.
#[derive(Clone, Copy)]
pub struct List {
    entries: [Entry; ENTRIES],
    count: u32,
}

impl List {
    // No entry.
    pub fn new() -> List {
        let none = Entry {
            holder: 0,
            size: 0,
            bytes: [0; RECORD],
        };
        List {
            entries: [none; ENTRIES],
            count: 0,
        }
    }

    // How many entries there are.
    pub fn count(&self) -> u32 {
        self.count
    }

    // The number of the entry with a record, counted from 1.
    pub fn find(&self, record: &[u8]) -> Option<u32> {
        let kept = parts::front(&self.entries, self.count as usize);
        for (number, entry) in (1..).zip(kept) {
            if entry.record() == record {
                return Some(number);
            }
        }
        None
    }

    // How many entries have the holder.
    pub fn live(&self, holder: u16) -> u64 {
        let kept = parts::front(&self.entries, self.count as usize);
        kept.iter().filter(|entry| entry.holder == holder).count() as u64
    }

    // One entry more, if there is room.
    pub fn keep(&mut self, holder: u16, record: &[u8]) {
        let mut bytes = [0; RECORD];
        parts::put_all(&mut bytes, 0, record);
        let size = record.len();
        if let Some(entry) = self.entries.get_mut(self.count as usize) {
            *entry = Entry {
                holder,
                size,
                bytes,
            };
            self.count = self.count.wrapping_add(1);
        }
    }
}
