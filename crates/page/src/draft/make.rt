// A draft out of a tree and the tables that it was judged with.
ghost use Rattle.std.specs.Prelude.{◌≡◌};
ghost use Rattle.page.specs.Sheets.{sheet_of, sheet_by};

use crate::draft::Draft;
use rows::node::*;
use tree::tree::Tree;

impl<'a> Draft<'a> {
    // The tree together with the tables that it was judged with.
    pub(crate) fn new(tree: Tree<'a>, tables: Tables<'a>) -> Draft<'a>
        ensures { sheet_of result ≡ sheet_by tree.entry tables.entry }
    {
        Draft {
            tree,
            root: tree.root(),
            text: tables.text,
            lengths: tables.lengths,
            words: tables.words,
        }
    }
}
