// A new entry, written into a register.
ghost use Rattle.std.specs.Prelude.{◌≡◌};
ghost use Rattle.lists.specs.inside.Writes.{Wrote};
ghost use Rattle.records.specs.Exchange.{smaller_record};
ghost use Rattle.registers.specs.Format.{entry_field};
ghost use Rattle.updates.specs.inside.Steps.{end_marked, Fitting, RoomFor, PutNew, Committable, Committed};

use crate::Entered;
use crate::accounts::charge;
use crate::deciding::{Decision, Place};
use fields::HEAD_SIZE;
use fields::integers::{put_four, put_two};
use registers::{ENTRY_BASE, ENTRY_HEAD, ENTRY_TAG};

// The field of an entry with the smaller of a record and its exchange, at the front of a buffer.
fn put_entry(number: u32, holder: u16, record: &[u8], out: &mut [u8]) -> usize
    requires { Fitting «record».now out.old }
    ensures { Wrote (entry_field number holder (smaller_record «record».now)) out.old 0
        out.new result }
{
    out[0] = ENTRY_TAG;
    let a = put_two(out, 1, ENTRY_BASE + record.len());
    let b = put_four(out, a, number as usize);
    put_two(out, b, holder as usize);
    ENTRY_HEAD + records::put_smaller(record, &mut out[ENTRY_HEAD..]).unwrap()
}

// The byte 00 at a place, if there is one.
fn put_mark(at: usize, out: &mut [u8])
    ensures { out.new ≡ end_marked at out.old }
{
    if at < out.len() {
        out[at] = 0;
    }
}

// Its number in the first field, the new entry behind the last one, and the mark behind it.
fn put_new(p: Place, record: &[u8], register: &mut [u8]) -> Entered
    requires { RoomFor p «record».now register.old }
    ensures { PutNew p (smaller_record «record».now) register.old
        register.new result }
{
    put_four(register, HEAD_SIZE, p.number as usize);
    let n = put_entry(p.number, p.account.holder, record, &mut register[p.end..]);
    put_mark(p.end + n, register);
    let mut account = p.account;
    charge(&mut account, 1);
    Entered::New(p.number, account)
}

// The register and the answer, by what was decided.
pub fn commit(decision: Decision, record: &[u8], register: &mut [u8]) -> Entered
    requires { Committable decision «record».now register.old }
    ensures { Committed decision (smaller_record «record».now) register.old
        register.new result }
{
    match decision {
        Decision::New(p) => put_new(p, record, register),
        Decision::Present(k, mut account) => {
            charge(&mut account, 0);
            Entered::Present(k, account)
        }
    }
}
