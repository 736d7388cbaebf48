// This crate has no code. Its specs/ are the small areas that 01 works out by hand, and proofs/ prove that the
// definitions of the other crates give the same results:
//     Questions.antt       what can be asked of a bench file, and what the definitions answer
//     SmallAreas.antt      C1 to C13, each drawn, with its results, and rows of requests
//     Agreed.antt          the theorem over all of them
#![tactic(auto)]
