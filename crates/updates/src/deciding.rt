// What a filing comes to, found before anything that was lent is written.
ghost use Rattle.std.specs.Prelude.{◌≡◌, ◌≤◌, suc, length};
ghost use Rattle.group.specs.Limits.{limit};
ghost use Rattle.records.specs.Format.{buffer_size};
ghost use Rattle.refusals.specs.Memory.{memory};
ghost use Rattle.updates.specs.inside.Steps.{settled, Judged, DecidedWith, Decided};

use crate::Account;
use records::BASE_SIZE;
use refusals::{LIMIT, Refusal};
use registers::{ENTRY_HEAD, LIVE_MOST};
use words::SMALL;

// The entries of a table and the bytes of a record, for a word of at most SMALL letters and for every word.
const SMALL_ENTRIES: usize = SMALL + 1;

const SMALL_BYTES: usize = BASE_SIZE + 4 * SMALL;

const ALL_ENTRIES: usize = LIMIT + 1;

const ALL_BYTES: usize = BASE_SIZE + 4 * LIMIT;

// A new entry: its number, where it goes, and its holder's account before it.
#[derive(Clone, Copy)]
pub struct Place {
    pub number: u32,
    pub end: usize,
    pub account: Account,
}

// A new entry, or the entry that holds the element, with the account before the filing.
#[derive(Clone, Copy)]
pub enum Decision {
    New(Place),
    Present(u32, Account),
}

// The entry that holds the element, else 13, else 14, else a new entry: `n` bytes of record, `length` of the buffer.
fn settle(
    search: Option<u32>,
    account: Account,
    last: u32,
    end: usize,
    n: usize,
    length: usize,
) -> Result<Decision, Refusal>
    ensures { result ≡ settled search account last end n length }
{
    if let Some(k) = search {
        return Ok(Decision::Present(k, account));
    }
    if LIVE_MOST <= account.live {
        return Err(Refusal::HolderFull);
    }
    let number = last.checked_add(1).ok_or(Refusal::RegisterFull)?;
    if length < end || length - end < n || length - end - n < ENTRY_HEAD {
        return Err(Refusal::RegisterFull);
    }
    Ok(Decision::New(Place {
        number,
        end,
        account,
    }))
}

// The same of a record and the bytes of a register: 12 first.
fn judge(record: &[u8], holder: u16, register: &[u8]) -> Result<Decision, Refusal>
    ensures { Judged «record».now holder register.now result }
{
    let o = registers::summary(register, holder)?;
    let account = Account {
        holder,
        live: o.live,
    };
    settle(
        registers::find(register, record),
        account,
        o.last,
        o.end,
        record.len(),
        register.len(),
    )
}

// The same of a word, whose record is written into the tables and the buffer lent, and the one that a register stores,
// the smaller of it and its exchange, into a second. No struct of the four: the word's call takes three of them apart.
fn judge_word(
    word: &[u8],
    holder: u16,
    register: &[u8],
    b: &mut [u16],
    a: &mut [u16],
    own: &mut [u8],
    stored: &mut [u8],
) -> Result<Decision, Refusal>
    ensures { DecidedWith word.now (memory b.old a.old own.old)
        (length stored.old) holder register.now result }
{
    let n = words::word_to_record(word, b, a, own)?;
    let m = records::put_smaller(&own[..n], stored)?;
    judge(&stored[..m], holder, register)
}

// What a filing of an accepted word comes to, by own arrays of these sizes.
fn decide_sized<const ENTRIES: usize, const BYTES: usize>(
    word: &[u8],
    holder: u16,
    register: &[u8],
) -> Result<Decision, Refusal>
    requires room { length word.now ≤ limit → (suc (length word.now) ≤ ENTRIES) ×
        (buffer_size (length word.now) ≤ BYTES) }
    requires size { (ENTRIES ≤ suc limit) × (BYTES ≤ buffer_size limit) }
    ensures { Decided word.now holder register.now result }
{
    let mut b = [0u16; ENTRIES];
    let mut a = [0u16; ENTRIES];
    let mut own = [0u8; BYTES];
    let mut stored = [0u8; BYTES];
    judge_word(
        word,
        holder,
        register,
        &mut b,
        &mut a,
        &mut own,
        &mut stored,
    )
}

// What a filing of an accepted word comes to.
pub fn decide(word: &[u8], holder: u16, register: &[u8]) -> Result<Decision, Refusal>
    ensures { Decided word.now holder register.now result }
{
    if word.len() <= SMALL {
        decide_sized::<SMALL_ENTRIES, SMALL_BYTES>(word, holder, register)
    } else {
        decide_sized::<ALL_ENTRIES, ALL_BYTES>(word, holder, register)
    }
}
