// This crate has no code: it is the argument that `loop_free` rests on. The way round is on top of specs/Lib.antt.
#![tactic(auto)]
