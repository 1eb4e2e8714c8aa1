// The reduced pair.
ghost use Rattle.reduced.specs.Submatrix.{slices_of, Reduces};
ghost use Rattle.reduced.specs.Lift.{Lifts};
ghost use Rattle.exports.specs.Answers.{by_number, Stays};

use crate::answers::hand_over;
use crate::lent::lent_table;
use reduced::from_principal_submatrix::from_principal_submatrix;
use reduced::indices::Indices;
use reduced::lift_solution::lift_solution;
use refusal::number_in;

#[unsafe(no_mangle)]
pub extern "C" fn wagonplan_raw_from_principal_submatrix(
    size: usize,
    count: usize,
    rows: &[u16],
    cols: &[u16],
    values: &[i64],
    variable_map: &[u16],
    fixed_index: &[u16],
    out_rows: &mut [u16],
    out_cols: &mut [u16],
    out_values: &mut [i64],
    entries: &mut usize,
) -> u8
    ensures reduces { Reduces size count (slices_of rows.now cols.now values.now) variable_map.now fixed_index.now (slices_of out_rows.old out_cols.old out_values.old)
        (by_number result entries.new) (slices_of out_rows.new out_cols.new out_values.new) }
    ensures stays { Stays result entries.old entries.new }
{
    let table = lent_table(size, count, rows, cols, values);
    hand_over(
        from_principal_submatrix(
            table,
            variable_map,
            fixed_index,
            out_rows,
            out_cols,
            out_values,
        ),
        entries,
    )
}

#[unsafe(no_mangle)]
pub extern "C" fn wagonplan_raw_lift_solution(
    size: usize,
    variable_map: &[u16],
    fixed_index: &[u16],
    fixed_value: &[f64],
    reduced_solution: &[f64],
    lifted: &mut [f64],
) -> u8
    ensures { Lifts size variable_map.now fixed_index.now fixed_value.now reduced_solution.now
        lifted.old result lifted.new }
{
    let indices = Indices {
        size,
        variable_map,
        fixed_index,
    };
    number_in(lift_solution(indices, fixed_value, reduced_solution, lifted))
}
