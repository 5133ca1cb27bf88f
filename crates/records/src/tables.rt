// The exponents of a record whose entries are right, in two tables.
ghost use Rattle.std.specs.Prelude.{◌≡◌, suc, ◌<◌, length};
ghost use Rattle.lists.specs.Tables.{filled};
ghost use Rattle.group.specs.Limits.{limit};
ghost use Rattle.records.specs.Reading.{exponent_at};
ghost use Rattle.records.specs.inside.Walking.{left_at, Inside};
ghost use Rattle.records.specs.inside.Steps.{Proper, FieldsFilled};

use crate::reading::Entries;
use crate::walk::Place;
use clause::HANDED;
use fields::integers::number_at;

// The exponents of a field by index, up to the limit.
fn fill_table(s: &[u8], p: Place, table: &mut [u16])
    requires inside { Inside s.now p }
    requires limit_in_bounds { limit < length table.old }
    requires proper { Proper 0 (left_at s.now p) }
    ensures { table.new ≡ filled (suc limit) (exponent_at (left_at s.now p)) table.old }
{
    table[..HANDED].fill(0);
    for i in 0..p.left {
        let at = p.at + 4 * i;
        table[number_at(s, at)] = number_at(s, at + 2) as u16;
    }
}

impl<'a> Entries<'a> {
    // Both tables.
    pub fn fill(self, b_table: &mut [u16], a_table: &mut [u16])
        requires { (limit < length b_table.old) × (limit < length a_table.old) }
        ensures { FieldsFilled self.entry.frame.bytes.now b_table.old a_table.old
            b_table.new a_table.new }
    {
        let f = self.frame;
        fill_table(f.bytes, f.b_place(), b_table);
        fill_table(f.bytes, f.a_place(), a_table);
    }
}
