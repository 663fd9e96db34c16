// The line of a role (document 02, 7/14): its name and the sums of its passes' counts.
ghost use Rattle.std.specs.Prelude.{◌≡◌, ◌≤◌, length};
ghost use Rattle.line_form.specs.Integers.{decimal};
ghost use Rattle.line_form.specs.Written.{Wrote};
ghost use Rattle.role_counts.specs.RoleCounts.{AtMost};
ghost use Rattle.report_line.specs.Sizes.{largest_sum};
ghost use Rattle.report_line.specs.Result.{role_line};
ghost use Rattle.report_line.specs.Written.{RoleAsked};

use super::line::held;
use line_form::write::{digit_count, write_form};
use role_counts::RoleCounts;
use roles::Role;

// Writes the line of a role.
pub fn write_role(role: Role, sum: RoleCounts, out: &mut [u8]) -> usize
    requires { RoleAsked role sum out.old }
    ensures { Wrote (role_line role sum) out.old out.new result }
{
    let words = [
        held(sum.attached as usize),
        held(sum.no_candidate as usize),
        held(sum.ambiguous as usize),
        held(sum.edge as usize),
    ];
    match role {
        Role::Plant => write_form(b"(role plant # # # #)\n", &words, out),
        Role::Depot => write_form(b"(role depot # # # #)\n", &words, out),
        Role::Dealer => write_form(b"(role dealer # # # #)\n", &words, out),
    }
}

// How many digits a sum has: those of what stands before its last ten, and these.
fn sum_digits(n: u128) -> usize
    requires { n ≤ largest_sum }
    ensures digits { result ≡ length (decimal n) }
    ensures few { result ≤ 30 }
{
    let front = n / 10_000_000_000;
    if front == 0 {
        return digit_count(n as usize);
    }
    10 + digit_count(front as usize)
}

// The length of the line of a role, of sums that no line may hold too.
pub fn role_length(role: Role, sum: RoleCounts) -> usize
    requires { AtMost largest_sum sum }
    ensures { result ≡ length (role_line role sum) }
{
    let attached = sum_digits(sum.attached);
    let no_candidate = sum_digits(sum.no_candidate);
    let ambiguous = sum_digits(sum.ambiguous);
    let edge = sum_digits(sum.edge);
    let digits = attached + no_candidate + ambiguous + edge;
    match role {
        Role::Plant => 17 + digits,
        Role::Depot => 17 + digits,
        Role::Dealer => 18 + digits,
    }
}
