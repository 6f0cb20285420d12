//! A table of rows.

ghost use Rattle.std.specs.Prelude.{◌≡◌, ◌<◌, IfSome};
ghost use Rattle.rule_table.specs.Meaning.{first_break};

use crate::row_test::RowTest;
use std::marker::Model;
use voe_tree::Tree;

/// A table of `N` rows, which contracts see as the list of its rows.
#[derive(Debug, Drop)]
pub struct Rows<const N: usize> {
    rows: [RowTest; N],
}

impl<const N: usize> Model for Rows<N> {
    ghost use Rattle.std.specs.Prelude.{List};
    ghost use Rattle.rule_table.specs.declared.row_test.RowTest.{RowTest};

    ghost Value = { List RowTest };

    ghost view = { λ r. r.rows };
}

impl<const N: usize> Rows<N> {
    /// The table of these rows, in this order.
    pub fn of(rows: [RowTest; N]) -> Rows<N>
        ensures { result ≡ rows.entry }
    {
        Rows { rows }
    }

    /// The least row that the tree breaks, counted from 0; nothing exactly where it breaks none. It takes no memory.
    pub fn first_break(&self, tree: &Tree) -> Option<usize>
        ensures least { result ≡ first_break self.now tree.now.root }
        ensures within { IfSome result (λ place. place < N) }
    {
        let root = tree.root();
        self.rows.iter().position(|row| !row.is_met(root))
    }
}

/// A table of the rows that are named, as `rows_of![RootNamed, AtMostOne(Who)]`.
#[macro_export]
macro_rules! rows_of {
    ($($test:ident $(($section:ident))?),+ $(,)?) => {
        $crate::Rows::of([$($crate::RowTest::$test $(($crate::Section::$section))?),+])
    };
}
