//! The forms of amounts: of the limits of bounds casts, and of what is allocated.

ghost use Rattle.std.specs.Prelude.{◌≡◌, is_some, IfOk};
ghost use Rattle.std.specs.Option.{option_map};
ghost use Rattle.ckc_typed.specs.Types.{element_of};
ghost use Rattle.ckc_typed.specs.Constants.{size_of};
ghost use Rattle.ckc_bounds_views.specs.ckc_bounds_points.specs.Shown.{known};
ghost use Rattle.ckc_bounds_views.specs.ckc_bounds_points.specs.Forms.{in_type};
ghost use Rattle.ckc_types.specs.declared.types.CType.TheVariants as ctype;
ghost use Rattle.ckc_bounds_views.specs.Fresh.{amount_there};
ghost use Rattle.ckc_bounds_views.specs.Views.{view, view_of_limits, view_of_node};

use ckc_base::Boxed;
use ckc_bounds_views::bounds_points::{Frame, Work, elements, in_type};
use ckc_bounds_views::form;
use ckc_linear::{Facts, Form};
use ckc_syntax::{Expr, Limits, Name, Node};
use ckc_typed::Note;
use ckc_typed::constants::size_of;
use ckc_types::{CType, Structs};
use std::alloc::AllocError;

/// The size of what a pointer of a type points to.
pub fn element_size(structs: &Structs, t: &CType) -> u32
    ensures { result ≡ size_of structs.now (element_of t.now) }
{
    match t {
        CType::Pointer(_, to) => size_of(structs, to.get()),
        CType::Int | CType::Unsigned | CType::Char | CType::Void | CType::Struct(_) => {
            size_of(structs, &CType::Void)
        }
    }
}

/// How many elements limits count, by the size of one.
pub fn amount(
    work: &mut Work,
    frame: &Frame,
    facts: &Facts,
    size: u32,
    limits: &Limits<Name, Note>,
) -> Result<Option<Form>, AllocError>
    ensures { IfOk result
        (λ k. k ≡ (view_of_limits frame.now limits.now).amount size (known facts.now)) }
{
    match limits {
        Limits::Count(e, _) => form(work, frame, facts, e.get()),
        Limits::ByteCount(e, _) => {
            let bytes = form(work, frame, facts, e.get())?;
            Ok(elements(size, bytes))
        }
        Limits::Between(_, _, _) | Limits::Unknown(_) => Ok(None),
    }
}

/// The count of a `calloc`, in the type `int`.
pub fn count_allocated(
    work: &mut Work,
    frame: &Frame,
    facts: &Facts,
    e: &Expr<Name, Note>,
) -> Result<Option<Form>, AllocError>
    ensures { let facts = known facts.now in
        IfOk result (λ k. k ≡ in_type facts ctype.Int ((view frame.now e.now).form facts)) }
{
    let count = form(work, frame, facts, e)?;
    in_type(work, facts, &CType::Int, count)
}

fn has_amount(
    work: &mut Work,
    frame: &Frame,
    facts: &Facts,
    t: &CType,
    limits: &Option<Boxed<Limits<Name, Note>>>,
) -> Result<bool, AllocError>
    ensures { IfOk result (λ b. b ≡ is_some (amount_there frame.now.structs t.now
        (option_map (view_of_limits frame.now) limits.now) (known facts.now))) }
{
    match limits {
        None => Ok(false),
        Some(l) => {
            let size = element_size(&frame.structs, t);
            let k = amount(work, frame, facts, size, l.get())?;
            Ok(k.is_some())
        }
    }
}

fn has_count(
    work: &mut Work,
    frame: &Frame,
    facts: &Facts,
    e: &Expr<Name, Note>,
) -> Result<bool, AllocError>
    ensures { let facts = known facts.now in
        IfOk result (λ b. b ≡ is_some
        (in_type facts ctype.Int ((view frame.now e.now).form facts))) }
{
    let k = count_allocated(work, frame, facts, e)?;
    Ok(k.is_some())
}

/// Whether the amount of a node has a form.
pub fn has_form(
    work: &mut Work,
    frame: &Frame,
    facts: &Facts,
    node: &Node<Name, Note>,
    t: &CType,
) -> Result<bool, AllocError>
    ensures { IfOk result (λ b. b
        ≡ (view_of_node frame.now node.now).has_form t.now (known facts.now)) }
{
    match node {
        Node::Trusted(_, _, l) => has_amount(work, frame, facts, t, l),
        Node::Tested(_, _, l) => has_amount(work, frame, facts, t, l),
        Node::Calloc(_, e, _) => has_count(work, frame, facts, e.get()),
        Node::Number(_, _) | Node::Text(_) | Node::Null | Node::Size(_) | Node::Un(_, _) => Ok(
            false,
        ),
        Node::Name(_) | Node::Bin(_, _, _) | Node::Cast(_, _) | Node::Pick(_, _, _) => Ok(false),
        Node::Dot(_, _, _) | Node::Arrow(_, _, _) => Ok(false),
        Node::Index(_, _) | Node::Call(_, _) => Ok(false),
    }
}
