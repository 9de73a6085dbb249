//! What holds of every history of a device. There is no code here; specs/History.antt has the words, proofs/ the theorems.
#![tactic(auto)]
