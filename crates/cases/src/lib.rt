// What the test programs share: from the text of an input to a call, and from what a call gave to the output.
//     lines      the cases of an input: of each its name and its words
//     read       the numbers of a line, each with its mark, which is the byte before it
//     metrics    the metric table that a line says
//     lists      the change list that a line says
//     tables     the tables that a call is lent, and what became of them
//     compare    in how many cells two tables differ, and checksums
//     input      standard input, and files
//     print      texts and numbers
// The words of a case are a letter and numbers, as n3, or a link or a change of one: 0-1=7, c1>2=16777215.
// Nothing is promised but that each function is safe and ends, that a place or a size is not above a bound, and that
// `Cases::of` begins with the whole text.
#![tactic(auto)]

use area::limits::{CELLS, ENTRY, MOST_CHANGES};

pub mod compare;
pub mod input;
pub mod lines;
pub mod lists;
pub mod metrics;
pub mod print;
pub mod read;
pub mod tables;

// Cells of the tables that are lent: one more than a table has, so that one can be lent that is too long.
pub const LONG_TABLE: usize = CELLS + 1;

// Bytes of the change lists that are lent: those of two changes more than a list may have.
pub const LONG_LIST: usize = ENTRY * (MOST_CHANGES + 2);
