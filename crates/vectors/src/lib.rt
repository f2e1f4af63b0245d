// Texts held against the definitions, as rows of proofs/ that are proved by computing. They stand in a crate of their own, above the
// definitions, because they take longer to check than all laws together. There is no code.

#![tactic(auto)]
