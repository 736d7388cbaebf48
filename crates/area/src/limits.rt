// The limits of an area. The contracts have them from specs/Limits.antt, and are not met where the two differ.

// Routers of an area, and so members of a set, rows of a table and cells of a row.
pub const WIDTH: usize = 64;

// A set of routers: bit k stands for router k, so it has WIDTH bits. It is a plain number, since C lends tables of sets
// and is lent them.
pub type Set = u64;

// Cells of a table.
pub const CELLS: usize = WIDTH * WIDTH;

// The metric of a link that is not used.
pub const UNUSED: u32 = 16777215;

// The distance to a router that no walk reaches.
pub const UNREACHED: u32 = 4294967295;

// Bytes of an entry of a list of links or changes.
pub const ENTRY: usize = 5;

// Changes of a list: those of one router with each of the others, both ways.
pub const MOST_CHANGES: usize = 2 * (WIDTH - 1);

// The last time that the clock of a record can show.
pub const LAST_TIME: u32 = 4294967295;

// Bytes of a step: kind, a, b.
pub const STEP: usize = 3;

// Steps of a bench file.
pub const MOST_STEPS: usize = 4096;

// Bytes of the largest bench file: n, the three counts, the two times, and as many links, changes and steps as may be.
// Only programs use it, for their buffers, and no contract; report_test runs a file of this size.
pub const LARGEST: usize = 10
    + ENTRY * WIDTH * (WIDTH - 1)
    + ENTRY * MOST_CHANGES
    + STEP * MOST_STEPS;
