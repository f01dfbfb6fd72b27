ghost use Rattle.std.specs.Prelude.{Ok};
ghost use Rattle.ckc_base.specs.Outcomes.{AnswersOutcome};
ghost use Rattle.ckc_resolve.specs.Types.{type_named};
ghost use Rattle.ckc_syntax.specs.Pointers.{wrapped};

use crate::meanings::named_tag;
use crate::names::Names;
use ckc_base::{Fault, Seq};
use ckc_syntax::{Name, Pointer, Spelling, TypeTree, wrapped};
use std::alloc::Global;

/// A type in these pointers, the outermost first.
fn in_pointers(
    alloc: Global,
    pointers: Seq<Pointer>,
    base: TypeTree<Name>,
) -> Result<TypeTree<Name>, Fault>
    ensures { AnswersOutcome result (Ok (wrapped pointers base)) }
{
    let whole = wrapped(alloc, pointers, base)?;
    Ok(whole)
}

/// A type with its tags named.
pub fn named_type<'a>(
    alloc: Global,
    names: &Names<'a>,
    t: &TypeTree<Spelling<'a>>,
) -> Result<TypeTree<Name>, Fault>
    ensures { AnswersOutcome result (type_named names.now t.now) }
{
    let mut pointers = Seq::new(alloc);
    let mut rest = t;
    'pointers: loop {
        match rest {
            TypeTree::Int => return in_pointers(alloc, pointers, TypeTree::Int),
            TypeTree::Unsigned => return in_pointers(alloc, pointers, TypeTree::Unsigned),
            TypeTree::Char => return in_pointers(alloc, pointers, TypeTree::Char),
            TypeTree::Void => return in_pointers(alloc, pointers, TypeTree::Void),
            TypeTree::Struct(n, pos) => {
                let tag = named_tag(names, n, *pos)?;
                return in_pointers(alloc, pointers, TypeTree::Struct(tag, *pos));
            }
            TypeTree::Raw(inner, pos) => {
                pointers.push(Pointer::Raw(*pos))?;
                rest = inner.get();
            }
            TypeTree::One(inner) => {
                pointers.push(Pointer::One)?;
                rest = inner.get();
            }
            TypeTree::Arr(inner) => {
                pointers.push(Pointer::Arr)?;
                rest = inner.get();
            }
            TypeTree::Nt(inner) => {
                pointers.push(Pointer::Nt)?;
                rest = inner.get();
            }
        }
    }
}
