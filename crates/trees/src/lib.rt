//! Lemmas on trees of tags, for the proofs of plans: distances, ways, reaches, centers and path centers. The crate has no code
//! of its own; what it offers stands in its proofs.
#![tactic(auto)]
