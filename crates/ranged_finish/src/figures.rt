// The floor of (H, c), in eighths.
ghost use Rattle.std.specs.Prelude.{◌≡◌};
ghost use Rattle.laws.specs.Lists.{elem_z};
ghost use Rattle.finalize.specs.Finalize.{floor_eighths};
ghost use Rattle.tables.specs.Entries.{listed};

use sign_table::made::SignTable;
use tables::judged::JudgedHall;
use tables::objective::floor_eighths;

// The floor of (H, c): the floor of its sign table.
pub fn floor_of(hall: JudgedHall) -> i64
    ensures { let h = hall.entry in result ≡ floor_eighths h.n (listed h.table) (elem_z h.c.now) }
{
    let mut signs = SignTable::new();
    signs.make(hall);
    floor_eighths(signs.entries())
}
