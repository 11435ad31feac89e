// A tree out of tables that are judged, and the blank tree that comes with a refusal.
ghost use Rattle.std.specs.Prelude.{◌≡◌, Some, None, IsOk, IsErrOf};
ghost use Rattle.rows.specs.Judge.{WellFormed, Refused};
ghost use Rattle.tree.specs.Judged.{Blank, Judged, Tried};
ghost use Rattle.rows.specs.declared.refusal.Refusal.{Refusal};

use crate::tree::Tree;
use rows::node::*;
use rows::refusal::Refusal;
use rows::role::Role;

static BLANK: [Row; 1] = [Row {
    role: Role::Other as u8,
    hidden: false,
    tree: TreeIndex(0),
    parent: NONE,
    index: 0,
    previous: NONE,
    next: NONE,
    children: Part { start: 0, count: 0 },
    text: Part { start: 0, count: 0 },
    lengths: Part { start: 0, count: 0 },
    words: Part { start: 0, count: 0 },
}];

impl<'a> Tree<'a> {
    // One row without parent or children, which is the root.
    pub fn blank() -> Tree<'a>
        ensures { Blank result }
    {
        Tree {
            rows: &BLANK,
            children: &[],
            root: NodeId(0),
        }
    }

    // The tables' tree, or the refusal.
    pub fn try_judge(tables: Tables<'a>, root: NodeId) -> Result<Tree<'a>, Refusal>
        ensures judged { Tried tables.entry root result }
        ensures accepts { WellFormed tables.entry root.0 → IsOk result }
        ensures refuses { (e : Refusal) → Refused tables.entry root.0 e → IsErrOf result e }
    {
        tables.verdict(root)?;
        Ok(Tree {
            rows: tables.rows,
            children: tables.children,
            root,
        })
    }

    // The same, with the blank tree beside a refusal: a tree comes in each case, so it is no `Result`.
    pub fn judge(tables: Tables<'a>, root: NodeId) -> (Tree<'a>, Option<Refusal>)
        ensures judged { Judged tables.entry root result.0 result.1 }
        ensures accepts { WellFormed tables.entry root.0 → result.1 ≡ None }
        ensures refuses { (e : Refusal) → Refused tables.entry root.0 e → result.1 ≡ Some e }
    {
        match Tree::try_judge(tables, root) {
            Ok(tree) => (tree, None),
            Err(refusal) => (Tree::blank(), Some(refusal)),
        }
    }
}
