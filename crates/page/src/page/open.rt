// Opening: the page of tables that are in order, or a refusal; and with the blank page in its place.
ghost use Rattle.std.specs.Prelude.{◌≡◌, Option, IsOk, IsErrOf};
ghost use Rattle.page.specs.Opening.{Accepted, Declined, Blank, Opened, Opens, Verdict};
ghost use Rattle.rows.specs.declared.refusal.Refusal.{Refusal};

use crate::draft::Draft;
use crate::page::Page;
use rows::node::*;
use rows::refusal::Refusal;
use tree::tree::Tree;

impl<'a> Page<'a> {
    // The page of one run without characters.
    pub fn blank() -> Page<'a>
        ensures { Blank result }
    {
        Page { draft: None }
    }

    // The tables' page, or the refusal with the smallest number, and of that number the smallest row.
    pub fn try_open(tables: Tables<'a>, root: NodeId) -> Result<Page<'a>, Refusal>
        ensures opens { Opened tables.entry root result }
        ensures accepts { Accepted tables.entry root → IsOk result }
        ensures refuses { (e : Refusal) → Declined tables.entry root e → IsErrOf result e }
    {
        let tree = Tree::try_judge(tables, root)?;
        let draft = Draft::new(tree, tables);
        draft.verdict()?;
        Ok(Page { draft: Some(draft) })
    }

    // The same, with the blank page beside a refusal: a page comes in each case, so it is no `Result`.
    pub fn open(tables: Tables<'a>, root: NodeId) -> (Page<'a>, Option<Refusal>)
        ensures opens { Opens tables.entry root result.0 result.1 }
        ensures single { (o : Option Refusal) → Verdict tables.entry root o → result.1 ≡ o }
    {
        match Page::try_open(tables, root) {
            Ok(page) => (page, None),
            Err(refusal) => (Page::blank(), Some(refusal)),
        }
    }
}
