// The gradient of a row for rules 3 and 4, each operation rounded once (001, `gradient_block`): by blocks of columns, whose sums stay in registers.
// The row and the factor stay two parameters, as in factor (block.rt says why).
#![tactic(auto)]

pub mod against; // against.rt: how an entry enters the sums of a gradient
mod two_blocks; // two_blocks.rt: a row's gradient by two blocks in one go
mod gradient; // gradient.rt: a row's gradient at any rank
pub mod ranks; // ranks.rt: a row's gradient, some ranks by themselves
pub mod pair4; // pair4.rt: two rows' gradients at rank 4
