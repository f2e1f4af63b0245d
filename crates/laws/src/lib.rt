// What follows from the definitions of a text's meaning stands in proofs/: laws that readers are proved by, and the three demands. No code: it stands apart
// from crates/definition so that what is to be believed is there alone.

#![tactic(auto)]
