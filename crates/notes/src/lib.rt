//! The starred field notes as one table under one claim: specs/Notes.antt and proofs/Notes.antt.
//! There is no code here; the program `runs` runs the notes.
#![tactic(auto)]
