// Demand 3: packets never circle while the machine runs. There is no code here: specs/ state the claim, and proofs/
// prove it.
//     LoopFree         the claim about a list of calls: `LoopFree`
//     LoopFreeLaws     the theorem: `loop_free`, for every input that Plan accepts and every list of calls that is
//                      covered: without ticks every list is, and with ticks those in which no router is late
//     HandedBack       the claim about the tables and the records that the code hands back: `LoopFreeBy`
//     HandedBackLaws   the theorem: `handed_back_free`; its premises are lines of the contracts of Plan and Step
//     Examples         two changes on three routers, and the loops that the order of writes rules out
// The argument over any two topologies is in the crate convergence; what a list of calls keeps, in the crate machine.
#![tactic(auto)]
