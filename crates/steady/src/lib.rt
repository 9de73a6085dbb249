//! Theorems about every step of the device: specs/Steady.antt and proofs/. There is no code here.
//! A good state stays good, five action slots are enough, no packet is longer than the packet size, and a step writes once at most.
#![tactic(auto)]
