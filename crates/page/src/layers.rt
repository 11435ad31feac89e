// Which sources are piled up over a page: a password is read without words, and masked where its
// characters would tell it.
ghost use Rattle.std.specs.Prelude.{◌↔◌, IsTrue};
ghost use Rattle.page.specs.Sheets.{sheet_of, runs_under};
ghost use Rattle.page.specs.Judging.{InOrder};
ghost use Rattle.page.specs.Layering.{HasPassword, Uniform, LayerOf, Layers};

use crate::draft::Draft;
use crate::page::Page;
use rows::role::Role;
use source::layered::{Layer, Layered};

impl<'a> Draft<'a> {
    fn has_password(&self) -> bool
        ensures { IsTrue result ↔ HasPassword self.now }
    {
        self.row(self.root).has_role(Role::PasswordInput)
    }

    // Whether no two characters under the root differ. The first run has characters, unless no run does.
    fn is_uniform(&self) -> bool
        requires { ∥ InOrder (sheet_of self.now) ∥₁ }
        ensures { IsTrue result ↔ Uniform (runs_under (sheet_of self.now)) }
    {
        let Some(first) = self.first() else {
            return true;
        };
        let parts = self.parts(first);
        let Some(length) = parts.lengths.first() else {
            return true;
        };
        let character = &parts.text[..usize::from(*length)];
        self.first_fault(|id| self.parts(id).has_only(character))
            .is_none()
    }
}

impl<'a> Page<'a> {
    // How much of the layers a page is read through.
    fn layer(&self) -> Layer
        ensures { LayerOf self.now result }
    {
        let Some(draft) = &self.draft else {
            return Layer::Plain;
        };
        if !draft.has_password() {
            Layer::Plain
        } else if draft.is_uniform() {
            Layer::Unworded
        } else {
            Layer::Masked
        }
    }

    // The page as it is to be read.
    pub fn layered(self) -> Layered<Page<'a>>
        ensures { Layers self.entry result }
    {
        let layer = self.layer();
        Layered::new(self, layer)
    }
}
