// What is promised, on one page: specs/Promises.antt. There is no code here: the crate's check is
// that every promise stands, by the theorems of the crates below.
#![tactic(auto)]
