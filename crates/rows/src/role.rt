// The roles that a row may have. A table has a number for each, and a greater number is no role.
ghost use Rattle.std.specs.Prelude.{◌≡◌, ◌<◌, ◌≤◌, ◌↔◌, IsTrue};
ghost use Rattle.rows.specs.Roles.{code_of, Decodes, HoldsText};

#[derive(Clone, Copy, PartialEq, Eq, Debug)]
pub enum Role {
    Other = 0,
    TextRun = 1,
    Label = 2,
    Document = 3,
    Terminal = 4,
    PasswordInput = 5,
    TextInput = 6,
}

// A number that stands for no role.
#[derive(Clone, Copy, PartialEq, Eq, Debug)]
pub struct UnknownRole(pub u8);

impl TryFrom<u8> for Role {
    type Error = UnknownRole;

    ghost try_from_gives = { Decodes };

    fn try_from(number: u8) -> Result<Role, UnknownRole> {
        match number {
            0 => Ok(Role::Other),
            1 => Ok(Role::TextRun),
            2 => Ok(Role::Label),
            3 => Ok(Role::Document),
            4 => Ok(Role::Terminal),
            5 => Ok(Role::PasswordInput),
            6 => Ok(Role::TextInput),
            _ => Err(UnknownRole(number)),
        }
    }
}

// The number that a table has for the role.
impl From<Role> for u8 {
    ghost from_gives = { λ role number. number ≡ code_of role };

    fn from(role: Role) -> u8 {
        role as u8
    }
}

impl Role {
    // Whether rows of this role hold text of their own.
    pub fn holds_text(self) -> bool
        ensures { IsTrue result ↔ HoldsText self }
    {
        !matches!(self, Role::Other | Role::TextRun)
    }
}
