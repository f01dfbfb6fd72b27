//! What a name means at its place.

ghost use Rattle.std.specs.Prelude.{◌≡◌};
ghost use Rattle.ckc_base.specs.Outcomes.{AnswersOutcome};
ghost use Rattle.ckc_resolve.specs.Meanings.{of_file, meaning_of, meaning_named, tag_named, member_named};

use crate::names::Names;
use crate::refusals::UNDECLARED;
use crate::scopes::Scopes;
use ckc_base::{Fault, Pos, refused};
use ckc_syntax::{Name, Spelling};

fn of_file<'a>(names: &Names<'a>, s: &Spelling<'a>) -> Option<Name>
    ensures { result ≡ of_file names.now s.now }
{
    if s.as_str() == "calloc" {
        return None;
    }
    if let Some(n) = names.statics.find(s) {
        return Some(Name::Static(n));
    }
    if let Some(n) = names.functions.find(s) {
        return Some(Name::Function(n));
    }
    if s.as_str() == "getchar" {
        Some(Name::Getchar)
    } else if s.as_str() == "putchar" {
        Some(Name::Putchar)
    } else {
        None
    }
}

fn meaning_of<'a>(names: &Names<'a>, scopes: &Scopes<'a>, s: &Spelling<'a>) -> Option<Name>
    ensures { result ≡ meaning_of names.now scopes.now s.now }
{
    match scopes.visible.find(s) {
        Some(name) => Some(name),
        None => of_file(names, s),
    }
}

/// What a name in an expression means, called or not.
pub fn named_meaning<'a>(
    names: &Names<'a>,
    scopes: &Scopes<'a>,
    s: &Spelling<'a>,
    pos: Pos,
) -> Result<Name, Fault>
    ensures { AnswersOutcome result (meaning_named names.now scopes.now s.now pos) }
{
    match meaning_of(names, scopes, s) {
        Some(name) => Ok(name),
        None => Err(refused(UNDECLARED, pos)),
    }
}

/// The tag that a type names.
pub fn named_tag<'a>(names: &Names<'a>, s: &Spelling<'a>, pos: Pos) -> Result<Name, Fault>
    ensures { AnswersOutcome result (tag_named names.now s.now pos) }
{
    if !names.structs.contains(s) {
        return Err(refused(UNDECLARED, pos));
    }
    match names.tags.find(s) {
        Some(n) => Ok(Name::Tag(n)),
        None => Err(refused(UNDECLARED, pos)),
    }
}

/// The member that a `.` or `->` names.
pub fn named_member<'a>(names: &Names<'a>, s: &Spelling<'a>, pos: Pos) -> Result<Name, Fault>
    ensures { AnswersOutcome result (member_named names.now s.now pos) }
{
    match names.members.find(s) {
        Some(n) => Ok(Name::Member(n)),
        None => Err(refused(UNDECLARED, pos)),
    }
}
