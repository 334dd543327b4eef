// The demands: statements in specs/, which the operations of crate judge have as `ensures`, and their theorems in proofs/. It has no function.
#![tactic(auto)]
