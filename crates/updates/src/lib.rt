// A word entered into a register of first filings, in which an element and its inverse share an entry, and a holder's
// account (02, [3] and [7]). All is judged first, in arrays of the call's own, and what was lent is written last.
#![tactic(auto)]

ghost use Rattle.refusals.specs.Memory.{memory};
ghost use Rattle.updates.specs.Accounts.{AccountRead};
ghost use Rattle.updates.specs.Entering.{EnteredWord};

use refusals::Refusal;

mod accounts;
mod deciding;
mod writing;

// A holder's account: its number and its live entries.
#[derive(Clone, Copy, Debug, PartialEq, Eq)]
pub struct Account {
    pub holder: u16,
    pub live: u64,
}

// The number of a new entry, or of the one that holds the element or its inverse, with the account then of the holder
// who files.
#[derive(Clone, Copy, Debug, PartialEq, Eq)]
pub enum Entered {
    New(u32, Account),
    Present(u32, Account),
}

// The account of a holder in a register.
pub fn account_of(register: &[u8], holder: u16) -> Result<Account, Refusal>
    ensures { AccountRead register.now holder result }
{
    let o = registers::summary(register, holder)?;
    Ok(Account {
        holder,
        live: o.live,
    })
}

// A word, filed under a holder: refusals 1, 2, 6, 7, then 12; the entry that holds the element or its inverse; 13, 14;
// a new entry.
pub fn enter_word(
    word: &[u8],
    b_table: &mut [u16],
    a_table: &mut [u16],
    record: &mut [u8],
    holder: u16,
    register: &mut [u8],
) -> Result<Entered, Refusal>
    ensures { EnteredWord word.now
        (memory b_table.old a_table.old «record».old)
        (memory b_table.new a_table.new «record».new)
        holder register.old register.new result }
{
    words::judge(word, b_table.len(), a_table.len(), record.len())?;
    let decision = deciding::decide(word, holder, register)?;
    let n = words::word_to_record(word, b_table, a_table, record)?;
    Ok(writing::commit(decision, &record[..n], register))
}
