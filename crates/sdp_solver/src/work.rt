// The table of a call as its float work takes it: the sign table of (H, c), its diagonal set aside (000).
ghost use Rattle.std.specs.Prelude.{◌+◌};
ghost use Rattle.prepared_table.specs.Made.{MadeOf};
ghost use Rattle.run_sweep.specs.Work.{sign_table_of};
ghost use Rattle.sdp_solver.specs.Usable.{costs_in};

use prepared_table::made::PreparedTable;
use sign_table::made::SignTable;
use tables::judged::JudgedHall;

// Makes `work` the table of the call.
pub fn call_work(hall: JudgedHall, work: &mut PreparedTable)
    ensures { MadeOf (sign_table_of (costs_in hall.entry)) (hall.entry.n + 1) work.new }
{
    let mut signs = SignTable::new();
    signs.make(hall);
    work.make(signs.entries(), hall.n + 1);
}
