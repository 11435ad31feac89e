// The page: a draft whose root and runs are in order, or the blank page, which has one run without
// characters and is no tree's page.
ghost use Rattle.std.specs.Option.{ForSome};
ghost use Rattle.page.specs.Sheets.{sheet_of};
ghost use Rattle.page.specs.Judging.{InOrder};

use crate::draft::Draft;

pub mod open;
pub mod reading;
pub mod walk;

// Without a draft it is the blank page.
#[derive(Clone, Copy)]
pub struct Page<'a> {
    pub(crate) draft: Option<Draft<'a>>,
    ghost ordered: { ForSome draft (λ d. ∥ InOrder (sheet_of d) ∥₁) },
}
