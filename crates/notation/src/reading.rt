// The powers of a text: the tables and the record of their product.
ghost use Rattle.std.specs.Prelude.{◌≤◌, length};
ghost use Rattle.group.specs.Powers.{exponent_sizes};
ghost use Rattle.records.specs.Format.{buffer_size};
ghost use Rattle.refusals.specs.Memory.{memory};
ghost use Rattle.notation.specs.inside.Products.{FilledBy, ShortRoom, ProductRecorded};
ghost use Rattle.notation.specs.inside.Held.{held};

use crate::powers::Powers;
use refusals::{Failure, LIMIT, Refusal};

impl Powers<'_> {
    // The exponents of the product's reduced form, in two tables, and how many levels were read.
    fn fill(&self, b_table: &mut [u16], a_table: &mut [u16]) -> Result<usize, Refusal>
        ensures { FilledBy (held self.now) b_table.old a_table.old b_table.new a_table.new result }
    {
        let mut lefts = [0u16; forest::CELLS];
        let mut rights = [0u16; forest::CELLS];
        let mut before = [0u16; forest::FRONT_ROOM];
        let mut stack = [0u16; forest::ROW_ROOM];
        let filled = forest::fill_powers(
            self.indices,
            self.exponents,
            self.sides,
            b_table,
            a_table,
            &mut lefts,
            &mut rights,
            &mut before,
            &mut stack,
        );
        match filled {
            Ok(levels) => Ok(levels),
            Err(Failure::Refused(r)) => Err(r),
            // Proved here, from what is lent here: so this match is no function of its callers.
            Err(Failure::Unfit) => unreachable!(),
        }
    }

    // Why powers are refused where the record buffer is too short: 11 and 6 come first. Nothing that is lent is
    // touched.
    fn refuse_short(&self, b_length: usize, a_length: usize) -> Refusal
        ensures { ShortRoom (held self.now) b_length a_length result }
    {
        let mut b = [0u16; LIMIT + 1];
        let mut a = [0u16; LIMIT + 1];
        match self.fill(&mut b, &mut a) {
            Err(r) => r,
            Ok(_) if b_length.min(a_length) <= LIMIT => Refusal::ShortTable,
            Ok(_) => Refusal::ShortBuffer,
        }
    }

    // The tables and the record of powers, where the buffer is long enough.
    fn write(
        &self,
        b_table: &mut [u16],
        a_table: &mut [u16],
        record: &mut [u8],
    ) -> Result<usize, Refusal>
        requires { buffer_size (exponent_sizes (held self.now)) ≤ length «record».old }
        ensures { ProductRecorded (held self.now)
            (memory b_table.old a_table.old «record».old)
            (memory b_table.new a_table.new «record».new) result }
    {
        let levels = self.fill(b_table, a_table)?;
        let written = encoding::write_record(&b_table[..levels], &a_table[..levels], record);
        Ok(written.unwrap())
    }

    // Powers beside the memory that is lent: 11, 6 and 7, in this order; else the tables and the record of their
    // product.
    pub fn record(
        &self,
        b_table: &mut [u16],
        a_table: &mut [u16],
        record: &mut [u8],
    ) -> Result<usize, Refusal>
        ensures { ProductRecorded (held self.now)
            (memory b_table.old a_table.old «record».old)
            (memory b_table.new a_table.new «record».new) result }
    {
        if record.len() < records::BASE_SIZE + 4 * self.sum {
            return Err(self.refuse_short(b_table.len(), a_table.len()));
        }
        self.write(b_table, a_table, record)
    }
}
