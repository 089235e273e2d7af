ghost use Rattle.std.specs.Prelude.{◌≡◌, length};
ghost use Rattle.std.specs.Iterator.{at_most};
ghost use Rattle.std.specs.Map.Iter.{TakesFirst};
ghost use Rattle.tap_table.specs.Row.{row_of};
ghost use Rattle.tap_table.specs.Table.{rows};

use crate::row::Row;
use crate::table::Table;
use std::marker::Model;

/// Steps through the links of a table, in ascending order of slot, then target. Contracts see the
/// links that are left.
///
/// Rule: docs/PROTOCOL.md, "Slots and tables".
#[derive(Drop)]
pub struct Rows<'a> {
    table: &'a Table,
    number: usize,
    link: usize,
}

impl<'a> Model for Rows<'a> {
    ghost use Rattle.std.specs.Prelude.{◌≤◌, List, [], length};
    ghost use Rattle.std.specs.List.{slice_index_or};
    ghost use Rattle.tap_table.specs.Row.{rows_left};
    ghost use Rattle.tap_table.specs.Table.{Row};

    ghost Value = { List Row };

    ghost view = { λ r. rows_left r.table.now r.number r.link };

    ghost invariant = { λ r. r.link ≤ length (slice_index_or r.table.now.slots r.number []) };
}

impl<'a> Rows<'a> {
    // Steps through all links of a table.
    pub(crate) fn new(table: &'a Table) -> Rows<'a>
        ensures { result ≡ rows table.now }
    {
        Rows {
            table,
            number: 0,
            link: 0,
        }
    }
}

impl<'a> Iterator for Rows<'a> {
    type Item = Row;

    ghost next_gives = { TakesFirst row_of };

    ghost remaining = { λ r. at_most (length r) };

    fn next(&mut self) -> Option<Row> {
        let sets = self.table.sets();
        while self.number < sets.len() {
            if self.link < sets[self.number].len() {
                let row = self.table.row(self.number, self.link);
                self.link += 1;
                return Some(row);
            }
            self.number += 1;
            self.link = 0;
        }
        None
    }
}
