// The metric table of a file's links.
//     put      the links, one after another, into a table without a link
ghost use Rattle.std.specs.Prelude.{◌≡◌, ◌≤◌, []};
ghost use Rattle.entries.specs.Entries.{entry_count};
ghost use Rattle.bench_file.specs.Read.{linked, InTable};

use area::limits::WIDTH;
use entries::Entries;

// `list` is the bytes from the first link on, and `links` their number.
pub(crate) fn put(list: &[u8], links: usize, table: &mut [u32])
    requires table_value { table.old ≡ linked [] 0 }
    requires whole { links ≤ entry_count list.now }
    requires in_table { InTable list.now links }
    ensures { table.new ≡ linked list.now links }
{
    for link in Entries::of(list).take(links) {
        table[WIDTH * link.from + link.to] = link.metric;
    }
}
