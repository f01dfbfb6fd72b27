//! Members that take part in bounds: whether they may be assigned, and whether they have an address.

ghost use Rattle.std.specs.Prelude.{◌≡◌, ◌==◌};
ghost use Rattle.std.specs.List.{list_any, list_all};
ghost use Rattle.ckc_bounds_ranges.specs.Members.{names_member, names_some, has_bounds, is_named, is_declared, names_another, takes_part, has_no_address, may_be_assigned_alone, is_target, is_covered, is_touched, is_kept, may_be_assigned_with};

use ckc_typed::constants::members_of;
use ckc_types::{MemberBounds, MemberShape, Structs};

fn names_member(m: u32, bounds: &MemberBounds) -> bool
    ensures { result ≡ names_member m bounds.now }
{
    match bounds {
        MemberBounds::Named(n, _) => *n == m,
        MemberBounds::Nothing | MemberBounds::Unknown | MemberBounds::NoForm => false,
        MemberBounds::Fixed(_) => false,
    }
}

fn names_some(bounds: &MemberBounds) -> bool
    ensures { result ≡ names_some bounds.now }
{
    match bounds {
        MemberBounds::Named(_, _) => true,
        MemberBounds::Nothing | MemberBounds::Unknown | MemberBounds::NoForm => false,
        MemberBounds::Fixed(_) => false,
    }
}

fn has_bounds(bounds: &MemberBounds) -> bool
    ensures { result ≡ has_bounds bounds.now }
{
    match bounds {
        MemberBounds::Nothing => false,
        MemberBounds::Named(_, _) | MemberBounds::Fixed(_) => true,
        MemberBounds::Unknown | MemberBounds::NoForm => true,
    }
}

fn is_named(structs: &Structs, tag: u32, m: u32) -> bool
    ensures { result ≡ is_named structs.now tag m }
{
    members_of(structs, tag)
        .iter()
        .any(|s| names_member(m, &s.bounds))
}

fn is_declared(structs: &Structs, tag: u32, m: u32) -> bool
    ensures { result ≡ is_declared structs.now tag m }
{
    members_of(structs, tag)
        .iter()
        .any(|s| s.name == m && has_bounds(&s.bounds))
}

fn names_another(structs: &Structs, tag: u32, m: u32) -> bool
    ensures { result ≡ names_another structs.now tag m }
{
    members_of(structs, tag)
        .iter()
        .any(|s| s.name == m && names_some(&s.bounds))
}

/// Whether a member of the structure with a tag takes part in bounds: its bounds name a member, or another's name it.
fn takes_part(structs: &Structs, tag: u32, m: u32) -> bool
    ensures { result ≡ takes_part structs.now tag m }
{
    names_another(structs, tag, m) || is_named(structs, tag, m)
}

/// Whether a member has no address (E606): it takes part in bounds or has some.
pub fn has_no_address(structs: &Structs, tag: u32, m: u32) -> bool
    ensures { result ≡ has_no_address structs.now tag m }
{
    takes_part(structs, tag, m) || is_declared(structs, tag, m)
}

/// Whether a member may be assigned alone (else E605), null or another value.
pub fn may_be_assigned_alone(structs: &Structs, tag: u32, m: u32, null: bool) -> bool
    ensures { result ≡ may_be_assigned_alone structs.now tag m null }
{
    !takes_part(structs, tag, m)
        || (is_declared(structs, tag, m) && !is_named(structs, tag, m) && null)
}

fn is_target(targets: &[u32], m: u32) -> bool
    ensures { result ≡ is_target targets.now m }
{
    targets.iter().any(|n| *n == m)
}

fn is_covered(targets: &[u32], s: &MemberShape) -> bool
    ensures { result ≡ is_covered targets.now s.now s.now.bounds }
{
    match &s.bounds {
        MemberBounds::Named(n, _) => is_target(targets, s.name) && is_target(targets, *n),
        MemberBounds::Nothing | MemberBounds::Unknown | MemberBounds::NoForm => {
            is_target(targets, s.name)
        }
        MemberBounds::Fixed(_) => is_target(targets, s.name),
    }
}

fn is_touched(m: u32, s: &MemberShape) -> bool
    ensures { result ≡ is_touched m s.now }
{
    s.name == m || names_member(m, &s.bounds)
}

fn is_kept(targets: &[u32], m: u32, s: &MemberShape) -> bool
    ensures { result ≡ is_kept targets.now m s.now }
{
    !is_touched(m, s) || is_covered(targets, s)
}

fn are_kept(members: &[MemberShape], targets: &[u32], m: u32) -> bool
    ensures { result ≡ list_all (is_kept targets.now m) members.now }
{
    members.iter().all(|s| is_kept(targets, m, s))
}

/// Whether a member may be assigned in a bundle with these target members of its structure (else E605).
pub fn may_be_assigned_with(structs: &Structs, tag: u32, m: u32, targets: &[u32]) -> bool
    ensures { result ≡ may_be_assigned_with structs.now tag m targets.now }
{
    !takes_part(structs, tag, m) || are_kept(members_of(structs, tag), targets, m)
}
