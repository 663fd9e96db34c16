// Who runs a pass (document 02, 6/14): the plant, a depot or a dealer.

#![tactic(auto)]

ghost use Rattle.std.specs.Prelude.{◌≡◌};
ghost use Rattle.roles.specs.Roles.{role_number, role_numbered};

// Each case has its number beside it, as the words of a pass and of its outcome have it. Without an as line it is the plant.
#[derive(Clone, Copy, Debug, Default, PartialEq, Eq)]
pub enum Role {
    #[default]
    Plant = 0,
    Depot = 1,
    Dealer = 2,
}

impl From<Role> for u32 {
    // The number of a role.
    ghost from_gives = { λ role n. n ≡ role_number role };

    fn from(role: Role) -> u32 {
        role as u32
    }
}

// The number of a role.
pub fn number(role: Role) -> u32
    ensures { result ≡ role_number role }
{
    u32::from(role)
}

// The role of a number; above 2 no role has it.
// Stays: a role is a word of the C interface, which the calls that write a result are lent (a).
#[tactic(auto, unfolding(crate::specs::Roles::role_numbered))]
pub fn numbered(n: u32) -> Role
    ensures { result ≡ role_numbered n }
{
    match n {
        0 => Role::Plant,
        1 => Role::Depot,
        _ => Role::Dealer,
    }
}
