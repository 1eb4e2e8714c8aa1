// The factor's rows and what is made of them, each operation rounded once. A slice is as long as what it holds: whoever
// lends a longer one cuts it to length.
#![tactic(auto)]

pub mod sums; // sums.rt: dot products, sums and squared norms
pub mod rows; // rows.rt: a row at a time, and the projection
pub mod term; // term.rt: how an entry of a row of the table enters a sum
pub mod block; // block.rt: a block of columns of the sums over a row
pub mod table; // table.rt: a table made ready for the float work, and a row of it
pub mod columns; // columns.rt: a column
pub mod blocks; // blocks.rt: a row by blocks of columns
pub mod product; // product.rt: the table times the factor
