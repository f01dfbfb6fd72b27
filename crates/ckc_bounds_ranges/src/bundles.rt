//! The form of bundles.

ghost use Rattle.std.specs.Prelude.{◌≡◌, [], map, IfOk};
ghost use Rattle.std.specs.List.{list_any};
ghost use Rattle.std.specs.Option.{option_map};
ghost use Rattle.ckc_bounds_ranges.specs.Bundles.{same_target, goes_with, local_target, through_target, of_target, is_it, some_names, there_names, mention, mention_of_node, mention_of_limits, is_call, is_in_the_way, may_follow, names_earlier, target_behind, next_target, all_follow, is_bundle};

use ckc_base::{Boxed, Seq};
use ckc_syntax::{Act, Expr, Limits, Name, Node, Stmt};
use ckc_typed::Note;
use std::alloc::{AllocError, Global};

/// What a bundle may assign: a local, the member of what a local points to, or a member of an object of file scope, each
/// by its numbers.
#[derive(Clone, Copy)]
enum Target {
    Local(u32),
    Through(u32, u32),
    Of(u32, u32),
}

fn same_target(s: Target, t: Target) -> bool
    ensures { result ≡ same_target s t }
{
    match (s, t) {
        (Target::Local(j), Target::Local(k)) => j == k,
        (Target::Through(s, m), Target::Through(t, n)) => s == t && m == n,
        (Target::Of(x, m), Target::Of(y, n)) => x == y && m == n,
        _ => false,
    }
}

fn goes_with(s: Target, t: Target) -> bool
    ensures { result ≡ goes_with s t }
{
    match (s, t) {
        (Target::Local(_), Target::Local(_)) => true,
        (Target::Through(s, _), Target::Through(t, _)) => s == t,
        (Target::Of(x, _), Target::Of(y, _)) => x == y,
        _ => false,
    }
}

fn local_target(n: Name) -> Option<Target>
    ensures { result ≡ local_target n }
{
    match n {
        Name::Local(k) => Some(Target::Local(k)),
        _ => None,
    }
}

fn through_target(pointer: Option<Name>, n: Name) -> Option<Target>
    ensures { result ≡ through_target pointer n }
{
    match (pointer, n) {
        (Some(Name::Local(s)), Name::Member(m)) => Some(Target::Through(s, m)),
        _ => None,
    }
}

fn of_target(object: Option<Name>, n: Name) -> Option<Target>
    ensures { result ≡ of_target object n }
{
    match (object, n) {
        (Some(Name::Static(x)), Name::Member(m)) => Some(Target::Of(x, m)),
        _ => None,
    }
}

fn name_of(node: &Node<Name, Note>) -> Option<Name>
    ensures { result ≡ (mention_of_node node.now).name }
{
    match node {
        Node::Name(n) => Some(*n),
        Node::Number(_, _) | Node::Text(_) | Node::Null | Node::Size(_) | Node::Un(_, _) => None,
        Node::Index(_, _) | Node::Bin(_, _, _) | Node::Cast(_, _) | Node::Pick(_, _, _) => None,
        Node::Dot(_, _, _) | Node::Arrow(_, _, _) | Node::Trusted(_, _, _) => None,
        Node::Tested(_, _, _) | Node::Call(_, _) | Node::Calloc(_, _, _) => None,
    }
}

/// What an expression is as a target of a bundle.
fn target_of(node: &Node<Name, Note>) -> Option<Target>
    ensures { result ≡ (mention_of_node node.now).target }
{
    match node {
        Node::Name(n) => local_target(*n),
        Node::Arrow(e, n, _) => through_target(name_of(&e.get().node), *n),
        Node::Dot(e, n, _) => of_target(name_of(&e.get().node), *n),
        Node::Number(_, _) | Node::Text(_) | Node::Null | Node::Size(_) | Node::Un(_, _) => None,
        Node::Index(_, _) | Node::Bin(_, _, _) | Node::Cast(_, _) | Node::Pick(_, _, _) => None,
        Node::Trusted(_, _, _) | Node::Tested(_, _, _) => None,
        Node::Call(_, _) | Node::Calloc(_, _, _) => None,
    }
}

fn is_it(s: Option<Target>, t: Target) -> bool
    ensures { result ≡ is_it s t }
{
    match s {
        Some(s) => same_target(s, t),
        None => false,
    }
}

#[cycle(names)]
fn limits_name(limits: &Limits<Name, Note>, t: Target) -> bool
    ensures { result ≡ mention_of_limits limits.now t }
{
    match limits {
        Limits::Count(e, _) => names(e.get(), t),
        Limits::ByteCount(e, _) => names(e.get(), t),
        Limits::Between(e, f, _) => names(e.get(), t) || names(f.get(), t),
        Limits::Unknown(_) => false,
    }
}

#[cycle(names)]
fn bounds_name(bounds: &Option<Boxed<Limits<Name, Note>>>, t: Target) -> bool
    ensures { result ≡ there_names (option_map mention_of_limits bounds.now) t }
{
    match bounds {
        Some(limits) => limits_name(limits.get(), t),
        None => false,
    }
}

#[cycle(names)]
fn some_name(es: &[Expr<Name, Note>], t: Target) -> bool
    ensures { result ≡ some_names t (map mention es.now) }
{
    for e in es {
        if names(e, t) {
            return true;
        }
    }
    false
}

#[cycle(names)]
fn node_names(node: &Node<Name, Note>, t: Target) -> bool
    ensures { result ≡ (mention_of_node node.now).names t }
{
    if is_it(target_of(node), t) {
        return true;
    }
    match node {
        Node::Un(_, e) | Node::Dot(e, _, _) | Node::Arrow(e, _, _) => names(e.get(), t),
        Node::Cast(_, e) | Node::Calloc(_, e, _) => names(e.get(), t),
        Node::Bin(_, e, f) => names(e.get(), t) || names(f.get(), t),
        Node::Index(e, f) => names(e.get(), t) || names(f.get(), t),
        Node::Pick(e, f, g) => names(e.get(), t) || names(f.get(), t) || names(g.get(), t),
        Node::Trusted(_, e, l) => names(e.get(), t) || bounds_name(l, t),
        Node::Tested(_, e, l) => names(e.get(), t) || bounds_name(l, t),
        Node::Call(_, es) => some_name(es.as_slice(), t),
        Node::Number(_, _) | Node::Text(_) | Node::Null | Node::Size(_) | Node::Name(_) => false,
    }
}

/// Whether a target is named anywhere in an expression.
#[cycle(names)]
fn names(e: &Expr<Name, Note>, t: Target) -> bool
    ensures { result ≡ (mention e.now).names t }
{
    node_names(&e.node, t)
}

fn is_call(e: &Expr<Name, Note>) -> bool
    ensures { result ≡ is_call e.now }
{
    match &e.node {
        Node::Call(_, _) => true,
        _ => false,
    }
}

/// Whether a target may not stand after another one: it is the same, or one is no local and no member of its structure.
fn is_in_the_way(t: Target, s: Target) -> bool
    ensures { result ≡ is_in_the_way t s }
{
    same_target(s, t) || !goes_with(s, t)
}

fn is_blocked(earlier: &[Target], t: Target) -> bool
    ensures { result ≡ list_any (is_in_the_way t) earlier.now }
{
    earlier.iter().any(|s| is_in_the_way(t, *s))
}

fn may_follow(earlier: &[Target], t: Target) -> bool
    ensures { result ≡ may_follow earlier.now t }
{
    !is_blocked(earlier, t)
}

fn names_earlier(earlier: &[Target], e: &Expr<Name, Note>) -> bool
    ensures { result ≡ names_earlier earlier.now e.now }
{
    earlier.iter().any(|t| names(e, *t))
}

fn target_behind(
    earlier: &[Target],
    target: Option<Target>,
    right: &Expr<Name, Note>,
) -> Option<Target>
    ensures { result ≡ target_behind earlier.now target right.now }
{
    match target {
        Some(t) => {
            if may_follow(earlier, t) && !is_call(right) && !names_earlier(earlier, right) {
                Some(t)
            } else {
                None
            }
        }
        None => None,
    }
}

/// The target of an assignment, if it may stand after those with earlier targets.
fn next_target(earlier: &[Target], s: &Stmt<Name, Note>) -> Option<Target>
    ensures { result ≡ next_target earlier.now s.now }
{
    match &s.body {
        Act::Assign(e, f) => target_behind(earlier, target_of(&e.get().node), f.get()),
        _ => None,
    }
}

fn all_follow(alloc: Global, ss: &[Stmt<Name, Note>]) -> Result<bool, AllocError>
    ensures { IfOk result (λ b. b ≡ all_follow ss.now []) }
{
    let mut earlier = Seq::new(alloc);
    for s in ss {
        match next_target(earlier.as_slice(), s) {
            Some(t) => earlier.push(t)?,
            None => return Ok(false),
        }
    }
    Ok(true)
}

/// Whether statements have the form of a bundle (else E607): 2 to 8 assignments to distinct locals, or to distinct members
/// of one structure, whose right sides call nothing and name no earlier target.
pub fn is_bundle(alloc: Global, ss: &[Stmt<Name, Note>]) -> Result<bool, AllocError>
    ensures { IfOk result (λ b. b ≡ is_bundle ss.now) }
{
    if ss.len() < 2 || ss.len() > 8 {
        return Ok(false);
    }
    all_follow(alloc, ss)
}
