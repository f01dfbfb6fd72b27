//! Expressions of typed parts: each is judged by the types of its parts, and has its own type noted.

ghost use Rattle.std.specs.Prelude.{◌≡◌, not, Ok};
ghost use Rattle.ckc_syntax.specs.declared.tree.Node.TheVariants as node;
ghost use Rattle.ckc_types.specs.declared.types.CType.TheVariants as ctype;
ghost use Rattle.ckc_types.specs.declared.types.Kind.TheVariants as kind;
ghost use Rattle.ckc_base.specs.Outcomes.{AnswersOutcome, bind, there_or, unless};
ghost use Rattle.ckc_typed.specs.Codes.{bad_operands, bad_conversion};
ghost use Rattle.ckc_typed.specs.Types.{is_void, type_written};
ghost use Rattle.ckc_typed.specs.Environment.{type_of_name};
ghost use Rattle.ckc_typed.specs.Operands.{unary_type, size_type};
ghost use Rattle.ckc_typed.specs.Expressions.{noted, number_type, string_type, in_row, address_typed, unary_typed, binary_typed, choice_typed, index_typed, dot_typed, arrow_typed, cast_typed, tested_typed, trusted_typed, call_typed, allocation_typed};

use crate::calls::result_typed;
use ckc_base::{Boxed, Bytes, Fault, Mode, Pos, Seq, refused};
use ckc_syntax::{Expr, Limits, Name, Node, TreeOp, TypeTree, copied_type};
use ckc_typed::codes::{BAD_CALL, BAD_CONVERSION, BAD_OPERANDS, NO_ADDRESS};
use ckc_typed::constants::is_null;
use ckc_typed::conversions::{is_bounds_cast, is_tested, is_trusted};
use ckc_typed::literals::{null_type, number_type, string_type};
use ckc_typed::operands::{self, is_cast};
use ckc_typed::types::{copied, is_object_type, is_void, type_written};
use ckc_typed::{Note, Variable, lookups};
use ckc_types::{CType, Kind};
use ckc_typing_environment::lookups::type_of_name;
use ckc_typing_environment::notes::noted;
use ckc_typing_environment::scope::FileScope;
use ckc_typing_environment::targets::{has_address, is_no_allocation};
use std::alloc::Global;

/// The type of a row, or the refusal of operands that are in none.
fn in_row(void: bool, pos: Pos, t: Option<CType>) -> Result<CType, Fault>
    ensures { AnswersOutcome result (in_row void pos t) }
{
    match t {
        Some(t) => Ok(t),
        None => {
            if void {
                Err(refused(BAD_CONVERSION, pos))
            } else {
                Err(refused(BAD_OPERANDS, pos))
            }
        }
    }
}

fn address_typed(
    alloc: Global,
    globals: &FileScope,
    mode: Mode,
    e: &Expr<Name, Note>,
    pos: Pos,
) -> Result<CType, Fault>
    ensures { AnswersOutcome result (address_typed globals.now mode e.now pos) }
{
    if !has_address(globals, e) {
        return Err(refused(NO_ADDRESS, pos));
    }
    let element = copied(alloc, &e.note.ctype)?;
    let to = Boxed::new(alloc, element)?;
    match mode {
        Mode::Checked => Ok(CType::Pointer(Kind::Arr, to)),
        Mode::Unchecked => Ok(CType::Pointer(Kind::Raw, to)),
    }
}

fn operation_typed(
    alloc: Global,
    op: TreeOp,
    e: &Expr<Name, Note>,
    pos: Pos,
) -> Result<CType, Fault>
    ensures { AnswersOutcome result
        (in_row (is_void e.now.note.ctype) pos (unary_type op e.now.note.ctype)) }
{
    let t = operands::unary_type(alloc, op, &e.note.ctype)?;
    in_row(is_void(&e.note.ctype), pos, t)
}

/// The type of a cast: the type is judged first, then the operand.
fn two_rules(t: CType, fits: bool, converts: bool, pos: Pos) -> Result<CType, Fault>
    ensures { AnswersOutcome result
        (unless (not fits) bad_operands pos
        (unless (not converts) bad_conversion pos (Ok t))) }
{
    if !fits {
        return Err(refused(BAD_OPERANDS, pos));
    }
    if !converts {
        return Err(refused(BAD_CONVERSION, pos));
    }
    Ok(t)
}

/// A number.
pub fn number(mode: Mode, pos: Pos, n: u32, unsigned: bool) -> Expr<Name, Note>
    ensures { result ≡ noted mode pos (node.Number n unsigned) (number_type unsigned) }
{
    noted(mode, pos, Node::Number(n, unsigned), number_type(unsigned))
}

/// A string literal.
pub fn text(alloc: Global, mode: Mode, pos: Pos, bytes: &Bytes) -> Result<Expr<Name, Note>, Fault>
    ensures { AnswersOutcome result (Ok (noted mode pos (node.Text bytes.now) (string_type mode))) }
{
    let t = string_type(alloc, mode)?;
    let copy = Bytes::from_slice(alloc, bytes.as_slice())?;
    Ok(noted(mode, pos, Node::Text(copy), t))
}

/// `NULL`.
pub fn null(alloc: Global, mode: Mode, pos: Pos) -> Result<Expr<Name, Note>, Fault>
    ensures { AnswersOutcome result
        (Ok (noted mode pos node.Null (ctype.Pointer kind.One ctype.Void))) }
{
    let t = null_type(alloc)?;
    Ok(noted(mode, pos, Node::Null, t))
}

/// A name that is used.
pub fn name(
    alloc: Global,
    globals: &FileScope,
    variables: &[Variable],
    mode: Mode,
    pos: Pos,
    n: Name,
) -> Result<Expr<Name, Note>, Fault>
    ensures { AnswersOutcome result
        (bind (there_or bad_operands pos (type_of_name globals.now variables.now n))
        (λ t. Ok (noted mode pos (node.Name n) t))) }
{
    match type_of_name(alloc, globals, variables, n)? {
        Some(t) => Ok(noted(mode, pos, Node::Name(n), t)),
        None => Err(refused(BAD_OPERANDS, pos)),
    }
}

/// A unary operator with its operand.
pub fn unary(
    alloc: Global,
    globals: &FileScope,
    mode: Mode,
    pos: Pos,
    op: TreeOp,
    e: Boxed<Expr<Name, Note>>,
) -> Result<Expr<Name, Note>, Fault>
    ensures { AnswersOutcome result
        (bind (unary_typed globals.now mode op e pos) (λ t. Ok (noted mode pos (node.Un op e) t))) }
{
    let t = match op {
        TreeOp::Address => address_typed(alloc, globals, mode, e.get(), pos)?,
        _ => operation_typed(alloc, op, e.get(), pos)?,
    };
    Ok(noted(mode, pos, Node::Un(op, e), t))
}

/// A binary operator with its operands.
pub fn binary(
    alloc: Global,
    mode: Mode,
    pos: Pos,
    op: TreeOp,
    e: Boxed<Expr<Name, Note>>,
    f: Boxed<Expr<Name, Note>>,
) -> Result<Expr<Name, Note>, Fault>
    ensures { AnswersOutcome result
        (bind (binary_typed op e f pos) (λ t. Ok (noted mode pos (node.Bin op e f) t))) }
{
    let (x, y) = (e.get(), f.get());
    let (left, right) = (&x.note.ctype, &y.note.ctype);
    let row = operands::binary_type(alloc, op, left, is_null(x), right, is_null(y))?;
    let t = in_row(is_void(left) || is_void(right), pos, row)?;
    Ok(noted(mode, pos, Node::Bin(op, e, f), t))
}

/// `? :` with its operands.
pub fn choice(
    mode: Mode,
    pos: Pos,
    e: Boxed<Expr<Name, Note>>,
    f: Boxed<Expr<Name, Note>>,
    g: Boxed<Expr<Name, Note>>,
) -> Result<Expr<Name, Note>, Fault>
    ensures { AnswersOutcome result
        (bind (choice_typed e f g pos) (λ t. Ok (noted mode pos (node.Pick e f g) t))) }
{
    let (x, y, z) = (
        &e.get().note.ctype,
        &f.get().note.ctype,
        &g.get().note.ctype,
    );
    let row = operands::choice_type(x, y, z);
    let t = in_row(is_void(x) || is_void(y) || is_void(z), pos, row)?;
    Ok(noted(mode, pos, Node::Pick(e, f, g), t))
}

/// `p[e]`.
pub fn index(
    alloc: Global,
    mode: Mode,
    pos: Pos,
    e: Boxed<Expr<Name, Note>>,
    f: Boxed<Expr<Name, Note>>,
) -> Result<Expr<Name, Note>, Fault>
    ensures { AnswersOutcome result
        (bind (index_typed e f pos) (λ t. Ok (noted mode pos (node.Index e f) t))) }
{
    let (left, right) = (&e.get().note.ctype, &f.get().note.ctype);
    let row = operands::index_type(alloc, left, right)?;
    let t = in_row(is_void(left) || is_void(right), pos, row)?;
    Ok(noted(mode, pos, Node::Index(e, f), t))
}

/// `x.m`.
pub fn dot(
    alloc: Global,
    globals: &FileScope,
    mode: Mode,
    pos: Pos,
    e: Boxed<Expr<Name, Note>>,
    n: Name,
    at: Pos,
) -> Result<Expr<Name, Note>, Fault>
    ensures { AnswersOutcome result
        (bind (dot_typed globals.now e n pos) (λ t. Ok (noted mode pos (node.Dot e n at) t))) }
{
    let of = &e.get().note.ctype;
    let row = lookups::dot_type(alloc, globals.structs(), of, n)?;
    let t = in_row(is_void(of), pos, row)?;
    Ok(noted(mode, pos, Node::Dot(e, n, at), t))
}

/// `p->m`.
pub fn arrow(
    alloc: Global,
    globals: &FileScope,
    mode: Mode,
    pos: Pos,
    e: Boxed<Expr<Name, Note>>,
    n: Name,
    at: Pos,
) -> Result<Expr<Name, Note>, Fault>
    ensures { AnswersOutcome result
        (bind (arrow_typed globals.now e n pos) (λ t. Ok (noted mode pos (node.Arrow e n at) t))) }
{
    let of = &e.get().note.ctype;
    let row = lookups::arrow_type(alloc, globals.structs(), of, n)?;
    let t = in_row(is_void(of), pos, row)?;
    Ok(noted(mode, pos, Node::Arrow(e, n, at), t))
}

/// A cast.
pub fn cast(
    alloc: Global,
    mode: Mode,
    pos: Pos,
    w: &TypeTree<Name>,
    e: Boxed<Expr<Name, Note>>,
) -> Result<Expr<Name, Note>, Fault>
    ensures { AnswersOutcome result
        (bind (cast_typed (type_written w.now) e pos)
        (λ t. Ok (noted mode pos (node.Cast w.now e) t))) }
{
    let to = type_written(alloc, w)?;
    let fits = is_object_type(&to);
    let converts = is_cast(&to, &e.get().note.ctype, is_null(e.get()));
    let t = two_rules(to, fits, converts, pos)?;
    let copy = copied_type(alloc, w)?;
    Ok(noted(mode, pos, Node::Cast(copy, e), t))
}

/// `sizeof(type)`.
pub fn sizeof(
    alloc: Global,
    mode: Mode,
    pos: Pos,
    w: &TypeTree<Name>,
) -> Result<Expr<Name, Note>, Fault>
    ensures { AnswersOutcome result
        (bind (there_or bad_operands pos (size_type (type_written w.now)))
        (λ t. Ok (noted mode pos (node.Size w.now) t))) }
{
    let of = type_written(alloc, w)?;
    match operands::size_type(&of) {
        Some(t) => {
            let copy = copied_type(alloc, w)?;
            Ok(noted(mode, pos, Node::Size(copy), t))
        }
        None => Err(refused(BAD_OPERANDS, pos)),
    }
}

/// `_Assume_bounds_cast`.
pub fn trusted(
    alloc: Global,
    mode: Mode,
    pos: Pos,
    w: &TypeTree<Name>,
    e: Boxed<Expr<Name, Note>>,
    limits: Option<Boxed<Limits<Name, Note>>>,
) -> Result<Expr<Name, Note>, Fault>
    ensures { AnswersOutcome result
        (bind (trusted_typed (type_written w.now) e limits pos)
        (λ t. Ok (noted mode pos (node.Trusted w.now e limits) t))) }
{
    let to = type_written(alloc, w)?;
    let fits = is_bounds_cast(&to, &limits);
    let converts = is_trusted(&to, e.get());
    let t = two_rules(to, fits, converts, pos)?;
    let copy = copied_type(alloc, w)?;
    Ok(noted(mode, pos, Node::Trusted(copy, e, limits), t))
}

/// `_Dynamic_bounds_cast`.
pub fn tested(
    alloc: Global,
    mode: Mode,
    pos: Pos,
    w: &TypeTree<Name>,
    e: Boxed<Expr<Name, Note>>,
    limits: Option<Boxed<Limits<Name, Note>>>,
) -> Result<Expr<Name, Note>, Fault>
    ensures { AnswersOutcome result
        (bind (tested_typed (type_written w.now) e limits pos)
        (λ t. Ok (noted mode pos (node.Tested w.now e limits) t))) }
{
    let to = type_written(alloc, w)?;
    let fits = is_bounds_cast(&to, &limits);
    let converts = is_tested(&to, e.get());
    let t = two_rules(to, fits, converts, pos)?;
    let copy = copied_type(alloc, w)?;
    Ok(noted(mode, pos, Node::Tested(copy, e, limits), t))
}

/// A call of a function.
pub fn call(
    alloc: Global,
    globals: &FileScope,
    mode: Mode,
    pos: Pos,
    n: Name,
    args: Seq<Expr<Name, Note>>,
) -> Result<Expr<Name, Note>, Fault>
    ensures { AnswersOutcome result
        (bind (call_typed globals.now mode n args pos) (λ t. Ok (noted mode pos (node.Call n args) t))) }
{
    match globals.signature_named(n) {
        None => Err(refused(BAD_CALL, pos)),
        Some(s) => {
            let t = result_typed(alloc, mode, s, args.as_slice(), pos)?;
            Ok(noted(mode, pos, Node::Call(n, args), t))
        }
    }
}

/// `calloc<T>(e, sizeof(T))`.
pub fn allocation(
    alloc: Global,
    mode: Mode,
    pos: Pos,
    w: &TypeTree<Name>,
    e: Boxed<Expr<Name, Note>>,
    x: &TypeTree<Name>,
) -> Result<Expr<Name, Note>, Fault>
    ensures { AnswersOutcome result
        (bind (allocation_typed (type_written w.now) e (type_written x.now) pos)
        (λ t. Ok (noted mode pos (node.Calloc w.now e x.now) t))) }
{
    let to = type_written(alloc, w)?;
    let size = type_written(alloc, x)?;
    if is_no_allocation(&to, e.get(), &size) {
        return Err(refused(BAD_CALL, pos));
    }
    let to = Boxed::new(alloc, to)?;
    let of = copied_type(alloc, w)?;
    let size = copied_type(alloc, x)?;
    let t = CType::Pointer(Kind::Arr, to);
    Ok(noted(mode, pos, Node::Calloc(of, e, size), t))
}
