// What a filter answers for a row, and the two filters that a page is walked with.
ghost use Rattle.std.specs.Prelude.{◌≡◌, ℕ};
ghost use Rattle.rows.specs.declared.filters.FilterResult.{FilterResult};
ghost use Rattle.rows.specs.declared.node.Row.{Row};
ghost use Rattle.rows.specs.Filters.{text_answer, field_answer};

use crate::node::*;
use crate::role::Role;

#[derive(Clone, Copy, PartialEq, Eq, Debug)]
pub enum FilterResult {
    Include,
    ExcludeNode,
    ExcludeSubtree,
}

// One question, answered alike each time.
pub trait Filter {
    ghost answer: { Self → ℕ → Row → FilterResult };

    fn filter(&self, id: NodeId, row: &Row) -> FilterResult
        ensures { result ≡ answer self.now id.0 row.now };
}

// Includes this root and the text runs.
#[derive(Clone, Copy)]
pub struct TextFilter(pub NodeId);

impl Filter for TextFilter {
    ghost answer = { λ s r x. text_answer s.0.0 r x };

    fn filter(&self, id: NodeId, row: &Row) -> FilterResult {
        if id == self.0 || row.has_role(Role::TextRun) {
            FilterResult::Include
        } else {
            FilterResult::ExcludeNode
        }
    }
}

// Includes the rows that hold text of their own, outside hidden subtrees.
#[derive(Clone, Copy)]
pub struct FieldFilter;

impl Filter for FieldFilter {
    ghost answer = { λ _ _ x. field_answer x };

    fn filter(&self, _id: NodeId, row: &Row) -> FilterResult {
        if row.hidden {
            FilterResult::ExcludeSubtree
        } else if row.holds_text() {
            FilterResult::Include
        } else {
            FilterResult::ExcludeNode
        }
    }
}
