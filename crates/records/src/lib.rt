// Records: checked, read into two tables of exponents, and exchanged.
#![tactic(auto)]

ghost use Rattle.std.specs.Prelude.{◌≡◌};
ghost use Rattle.refusals.specs.Placing.{Placed};
ghost use Rattle.records.specs.Checking.{Checked};
ghost use Rattle.records.specs.Exchange.{SmallnessRead};
ghost use Rattle.records.specs.inside.Contracts.{Decoded};
ghost use Rattle.records.specs.inside.Exchanging.{framed_above, is_exchange_value, smaller_in};

use frame::Frame;
use refusals::Refusal;

mod exchange;
mod frame;
mod reading;
mod reduced;
mod tables;
mod walk;

// The bytes of a record with no entry.
pub const BASE_SIZE: usize = 6;

// The tags of the b side and of the a side.
pub const B_TAG: u8 = 1;

pub const A_TAG: u8 = 2;

// Record check: refusals 3, 4 and 5, in this order. Nothing is written.
pub fn check_record(record: &[u8]) -> Result<(), Refusal>
    ensures { Checked «record».now result }
{
    let frame = Frame::read(record).ok_or(Refusal::BadFrame)?;
    frame.entries()?.check()
}

// The exponents of a record, by index: refusals 3, 4 and 5, then 6; each table needs LIMIT + 1 entries.
pub fn record_to_tables(
    record: &[u8],
    b_table: &mut [u16],
    a_table: &mut [u16],
) -> Result<(), Refusal>
    ensures { Decoded «record».now b_table.old a_table.old
        b_table.new a_table.new result }
{
    let frame = Frame::read(record).ok_or(Refusal::BadFrame)?;
    frame.entries()?.read(b_table, a_table)
}

// Whether two fields frame bytes and their exchange comes before them.
fn is_above(record: &[u8]) -> bool
    ensures { result ≡ framed_above «record».now }
{
    Frame::read(record).is_some_and(|f| f.is_above())
}

// Whether a record is not above the record with its sides exchanged, in byte order: refusals 3, 4 and 5.
pub fn is_smaller(record: &[u8]) -> Result<bool, Refusal>
    ensures { SmallnessRead «record».now result }
{
    check_record(record)?;
    Ok(!is_above(record))
}

// Whether two fields frame each of two slices and the one is the other with its sides exchanged.
pub fn is_exchange(record: &[u8], other: &[u8]) -> bool
    ensures { result ≡ is_exchange_value «record».now other.now }
{
    let (Some(s), Some(t)) = (Frame::read(record), Frame::read(other)) else {
        return false;
    };
    s.is_exchange_of(t)
}

// The smaller of a record and the record with its sides exchanged, at the front of a buffer: refusals 3 and 7.
pub fn put_smaller(record: &[u8], out: &mut [u8]) -> Result<usize, Refusal>
    ensures { Placed (smaller_in «record».now out.old) out.old
        out.new result }
{
    let frame = Frame::read(record).ok_or(Refusal::BadFrame)?;
    if out.len() < record.len() {
        return Err(Refusal::ShortBuffer);
    }
    if frame.is_above() {
        frame.put_exchange(out);
    } else {
        out[..record.len()].copy_from_slice(record);
    }
    Ok(record.len())
}
