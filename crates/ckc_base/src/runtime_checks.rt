ghost use Rattle.std.specs.Prelude.{◌≡◌, ◌<◌, ◌≤◌, ◌⊎◌, ◌↔◌, IsNone, IfSome};
ghost use Rattle.ckc_base.specs.Checks.{number_of, name_of, check_with};

/// A check at which a program stops (Checked C specification 0.9, section 3, on dynamic checks).
#[derive(Clone, Copy, Debug)]
pub enum Check {
    Null,
    Bounds,
    Terminator,
    Arith,
    Divide,
    Cast,
    Dynamic,
    Depth,
}

/// The number of a check, from 1 to 8.
pub fn check_number(c: Check) -> u32
    ensures { result ≡ number_of c }
{
    match c {
        Check::Null => 1,
        Check::Bounds => 2,
        Check::Terminator => 3,
        Check::Arith => 4,
        Check::Divide => 5,
        Check::Cast => 6,
        Check::Dynamic => 7,
        Check::Depth => 8,
    }
}

/// The check that has the number.
pub fn check_of(n: u32) -> Option<Check>
    ensures found { IfSome result (λ c. number_of c ≡ n) }
    ensures none { IsNone result ↔ ((n < 1) ⊎ (8 < n)) }
    ensures exact { result ≡ check_with n }
{
    match n {
        1 => Some(Check::Null),
        2 => Some(Check::Bounds),
        3 => Some(Check::Terminator),
        4 => Some(Check::Arith),
        5 => Some(Check::Divide),
        6 => Some(Check::Cast),
        7 => Some(Check::Dynamic),
        8 => Some(Check::Depth),
        _ => None,
    }
}

/// The name of a check, as the report of a stop has it.
pub fn check_name(c: Check) -> &'static str
    ensures { result.now ≡ name_of c }
{
    match c {
        Check::Null => "null",
        Check::Bounds => "bounds",
        Check::Terminator => "terminator",
        Check::Arith => "arith",
        Check::Divide => "divide",
        Check::Cast => "cast",
        Check::Dynamic => "dynamic",
        Check::Depth => "depth",
    }
}
