// The verdict on a draft: its root, then what is asked of its runs, row by row.
ghost use Rattle.std.specs.Prelude.{◌↔◌, IsTrue};
ghost use Rattle.rows.specs.declared.node.NodeId.{NodeId};
ghost use Rattle.page.specs.Sheets.{sheet_of, IsRun};
ghost use Rattle.page.specs.Judging.{Rooted, CharactersAt, WordsAt, LineAt, Linked, Answered, RunsVerdict};

use crate::draft::*;
use rows::node::*;
use rows::refusal::Refusal;

impl<'a> Draft<'a> {
    fn is_rooted(&self) -> bool
        ensures { IsTrue result ↔ Rooted (sheet_of self.now) }
    {
        self.row(self.root).holds_text() && self.first().is_some()
    }

    fn has_characters(&self, id: NodeId) -> bool
        ensures { IsTrue result ↔ CharactersAt (sheet_of self.now) id.0 }
    {
        let parts = self.parts(id);
        parts.is_fitting() && (!parts.lengths.is_empty() || self.next(id).is_none())
    }

    fn has_words(&self, id: NodeId) -> bool
        ensures { IsTrue result ↔ WordsAt (sheet_of self.now) id.0 }
    {
        self.parts(id).is_rising()
    }

    // Whether a line link is none, or the neighbour in the list, of the same tree, that links back.
    fn is_linked(&self, id: NodeId, link: NodeId, neighbour: Option<NodeId>, back: NodeId) -> bool
        ensures { IsTrue result ↔ Linked (sheet_of self.now).rows id.0 link neighbour back }
    {
        link == NONE
            || neighbour == Some(link) && self.row(link).tree == self.row(id).tree && back == id
    }

    fn is_in_line(&self, id: NodeId) -> bool
        ensures { IsTrue result ↔ LineAt (sheet_of self.now) id.0 }
    {
        let here = self.row(id);
        self.is_linked(id, here.next, self.next(id), self.row(here.next).previous)
            && self.is_linked(
                id,
                here.previous,
                self.previous(id),
                self.row(here.previous).next,
            )
    }

    // The run with the smallest row number that does not fit.
    pub(crate) fn first_fault<F: Fn(NodeId) -> bool>(&self, fits: F) -> Option<NodeId>
        requires { (id : NodeId) → IsRun (sheet_of self.now) id.0 → F.pre fits id }
        ensures { Answered (F.post fits) (sheet_of self.now) result }
    {
        // under `find(|id| self.is_run(*id) && !fits(*id))` it is not seen that `fits` is called at runs alone
        for id in 0..self.tree.len() as u16 {
            let id = NodeId(id);
            if self.is_run(id) && !fits(id) {
                return Some(id);
            }
        }
        None
    }

    // Whether the root and the runs under it are in order, else the refusal.
    pub(crate) fn verdict(&self) -> Result<(), Refusal>
        ensures { RunsVerdict (sheet_of self.now) result }
    {
        if !self.is_rooted() {
            return Err(Refusal::BadRoot(self.root));
        }
        if let Some(run) = self.first_fault(|id| self.has_characters(id)) {
            return Err(Refusal::BadRun(run));
        }
        if let Some(run) = self.first_fault(|id| self.has_words(id)) {
            return Err(Refusal::BadWords(run));
        }
        if let Some(run) = self.first_fault(|id| self.is_in_line(id)) {
            return Err(Refusal::BadLine(run));
        }
        Ok(())
    }
}
