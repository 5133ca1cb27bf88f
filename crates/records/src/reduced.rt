// The reduced form's clause, and the tables, of a record whose entries are right. A record of few entries is walked;
// the exponents of one with many are put into tables, since a walk mispredicts its branches there.
ghost use Rattle.std.specs.Prelude.{◌≡◌};
ghost use Rattle.refusals.specs.Outcomes.{verdict_of, drop_value};
ghost use Rattle.records.specs.Reading.{reduced_form};
ghost use Rattle.clause.specs.inside.Tables.{ReadInto};

use crate::reading::Entries;
use crate::walk::walk;
use clause::{HANDED, TABLE};
use refusals::Refusal;

// The most bytes of both bodies of a record that is walked: 32 entries.
const FEW: usize = 128;

impl<'a> Entries<'a> {
    // Whether the record is walked.
    fn few(self) -> bool {
        self.frame.b_length + self.frame.a_length <= FEW
    }

    // The clause by a walk.
    fn check_few(self) -> Result<(), Refusal>
        ensures { verdict_of result ≡ drop_value (reduced_form self.entry.frame.bytes.now) }
    {
        walk(self.frame.bytes, self.frame.b_place(), self.frame.a_place())
    }

    // The clause by own tables.
    fn check_many(self) -> Result<(), Refusal>
        ensures { verdict_of result ≡ drop_value (reduced_form self.entry.frame.bytes.now) }
    {
        let mut b = [0u16; TABLE];
        let mut a = [0u16; TABLE];
        self.fill(&mut b, &mut a);
        clause::check_tables(&b, &a)
    }

    // Whether the form is reduced.
    pub fn check(self) -> Result<(), Refusal>
        ensures { verdict_of result ≡ drop_value (reduced_form self.entry.frame.bytes.now) }
    {
        if self.few() {
            self.check_few()
        } else {
            self.check_many()
        }
    }

    // The tables of a record that is walked, filled once it is known to be reduced.
    fn read_few(self, b_table: &mut [u16], a_table: &mut [u16]) -> Result<(), Refusal>
        ensures { ReadInto (reduced_form self.entry.frame.bytes.now) b_table.old a_table.old
            b_table.new a_table.new result }
    {
        self.check_few()?;
        if b_table.len() < HANDED || a_table.len() < HANDED {
            return Err(Refusal::ShortTable);
        }
        self.fill(b_table, a_table);
        Ok(())
    }

    // The tables of a record with many entries: own ones are filled once, tested and copied.
    fn read_many(self, b_table: &mut [u16], a_table: &mut [u16]) -> Result<(), Refusal>
        ensures { ReadInto (reduced_form self.entry.frame.bytes.now) b_table.old a_table.old
            b_table.new a_table.new result }
    {
        let mut b = [0u16; TABLE];
        let mut a = [0u16; TABLE];
        self.fill(&mut b, &mut a);
        clause::hand_over(&b, &a, b_table, a_table)
    }

    // Whether the form is reduced, and then its exponents in the tables: 5, then 6.
    pub fn read(self, b_table: &mut [u16], a_table: &mut [u16]) -> Result<(), Refusal>
        ensures { ReadInto (reduced_form self.entry.frame.bytes.now) b_table.old a_table.old
            b_table.new a_table.new result }
    {
        if self.few() {
            self.read_few(b_table, a_table)
        } else {
            self.read_many(b_table, a_table)
        }
    }
}
