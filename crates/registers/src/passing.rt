// One pass over the entries of a register: each is judged against those before it, by a table in which they marked
// their fingerprints and are counted by their holders.
ghost use Rattle.std.specs.Prelude.{◌≡◌, ℕ, ◌+◌, ◌<◌, set, get_or};
ghost use Rattle.registers.specs.Reading.{stored_in};
ghost use Rattle.registers.specs.Answers.{Summarised};
ghost use Rattle.registers.specs.inside.Steps.{accepts, is_new_value, entry_fits, count_at};
ghost use Rattle.registers.specs.inside.Steps.{EntryHead, FirstStands, fingerprint, marked_at, marked, table_size};

use crate::{Heading, LIVE_MOST, MARK, Overview, TABLE, prints};
use refusals::Refusal;

// What the entries before a place left: the number of the last of them, and the table.
#[derive(Drop)]
pub struct Seen {
    pub low: u32,
    pub table: [u8; TABLE],
}

impl Seen {
    // No entry.
    fn new() -> Seen
        ensures low { result.low ≡ 0 }
        ensures table { (h : ℕ) → get_or result.table h 0 ≡ 0 }
    {
        Seen {
            low: 0,
            table: [0; TABLE],
        }
    }

    // Whether no entry has the record; x is its fingerprint, and the register is searched only where both places of it
    // are marked.
    fn is_new(&self, s: &[u8], bytes: &[u8], x: u32) -> bool
        requires { x ≡ fingerprint bytes.now }
        ensures { result ≡ is_new_value s.now bytes.now self.now.table self.now.low }
    {
        self.table[prints::low_place(x)] < MARK
            || self.table[prints::high_place(x)] < MARK
            || crate::find(s, bytes).is_none_or(|k| self.low < k)
    }

    // The live entries of a holder.
    fn live(&self, holder: u16) -> u64
        ensures { result ≡ count_at self.now.table holder }
    {
        (self.table[holder as usize] % MARK) as u64
    }

    // Whether the entry at a place may follow.
    fn fits(&self, s: &[u8], at: usize, h: Heading, x: u32) -> bool
        requires { EntryHead s.now at h x }
        ensures { result ≡ entry_fits s.now at self.now.low self.now.table }
    {
        let bytes = &s[h.start..h.next];
        self.low < h.number
            && is_record(bytes)
            && self.live(h.holder) < LIVE_MOST
            && self.is_new(s, bytes, x)
    }

    // A mark at a place of the table.
    fn mark(&mut self, i: usize)
        requires { i < table_size }
        ensures low { self.new.low ≡ self.old.low }
        ensures table { self.new.table ≡ marked_at i self.old.table }
    {
        self.table[i] = self.table[i] % MARK + MARK;
    }

    // One more entry, by its head and its fingerprint.
    fn add(&mut self, h: Heading, x: u32)
        requires { get_or (marked x self.old.table) h.holder 0 < 16 }
        ensures low { self.new.low ≡ h.number }
        ensures table { self.new.table ≡ set (marked x self.old.table) h.holder
            (get_or (marked x self.old.table) h.holder 0 + 1) }
    {
        self.mark(prints::low_place(x));
        self.mark(prints::high_place(x));
        self.table[h.holder as usize] += 1;
        self.low = h.number;
    }
}

// Whether bytes are a record that is not above its exchange.
fn is_record(bytes: &[u8]) -> bool
    ensures { result ≡ accepts (stored_in bytes.now) }
{
    matches!(records::is_smaller(bytes), Ok(true))
}

// The pass, where the first field stands, with the last number given. A `while`: an entry says where the next begins.
pub fn pass(s: &[u8], last: u32, holder: u16) -> Result<Overview, Refusal>
    requires { FirstStands s.now last }
    ensures { Summarised s.now holder result }
{
    let mut seen = Seen::new();
    let mut at = crate::FIRST_SIZE;
    while let Some(h) = crate::entry_at(s, at)? {
        let x = prints::print_of(&s[h.start..h.next]);
        if !seen.fits(s, at, h, x) {
            return Err(Refusal::BadRegister);
        }
        seen.add(h, x);
        at = h.next;
    }
    if last < seen.low {
        return Err(Refusal::BadRegister);
    }
    Ok(Overview {
        last,
        end: at,
        live: seen.live(holder),
    })
}
