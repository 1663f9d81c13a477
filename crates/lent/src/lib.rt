// No function: what the proofs of functions over a lent record share stands in proofs/. They cite the theorems `stands` and `stands_equal` of
// `Lends.antt`: a function whose body reads the record, calls a function by value, stores the record that comes back and returns the answer
// beside it meets a contract that says of the lent record what its callee's contract says of the record by value.
#![tactic(auto)]
