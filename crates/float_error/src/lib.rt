// The error of one rounding, and of sums, products and quotients, over whole numbers. No code.
#![tactic(auto)]
