// A table of whole roots (02, 4/14), from which the square root takes its first guess.

#![tactic(auto)]

ghost use Rattle.std.specs.Prelude.{◌≡◌, ◌*◌, ◌<◌};
ghost use Rattle.root_table.specs.Roots.{entry};
ghost use Rattle.root_table.specs.Whole.{WholePart};

mod roots; // roots.rt: the table

// Entry k of the table: the whole part of the root of 1,024 k.
pub fn whole_root(k: usize) -> u16
    requires { k < 1024 }
    ensures listed { result ≡ entry k }
    ensures ruled { WholePart (1024 * k) result }
{
    roots::ROOTS[k]
}
