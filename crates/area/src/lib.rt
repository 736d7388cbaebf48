// The vocabulary of the ordered FIB bench, with no routing in it.
//     bytes        numbers in a list of bytes
//     limits       how many routers, changes and steps; the metric and the distance that stand for "none"
//     metrics      metric tables
//     refusal      why a call is refused, and the answer of a call
// What 01 means by them is defined in specs/, and so are tests, tables and lists, which every layer shares: see the top
// of specs/Lib.antt.
#![tactic(auto)]

pub mod bytes;
pub mod limits;
pub mod metrics;
pub mod refusal;
