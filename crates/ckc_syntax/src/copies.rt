//! Copies of the parts of a tree, each equal to the part that it is a copy of.

ghost use Rattle.std.specs.Prelude.{◌≡◌, IfOk};

use crate::{Decl, Expr, Head, Init, Limits, Name, Node, Pointer, Spelling, TypeTree, wrapped};
use ckc_base::{Boxed, Bytes, Seq};
use std::alloc::{AllocError, Global};

/// What a tree can be copied with: its names, and what a phase notes in it.
pub trait ExactClone: Drop {
    /// An equal value.
    fn exact_clone(&self, alloc: Global) -> Result<Self, AllocError>
        ensures { IfOk result (λ c. c ≡ self.now) };
}

impl<'a> ExactClone for Spelling<'a> {
    fn exact_clone(&self, _alloc: Global) -> Result<Spelling<'a>, AllocError> {
        Ok(Spelling::new(self.as_str()))
    }
}

impl ExactClone for Name {
    fn exact_clone(&self, _alloc: Global) -> Result<Name, AllocError> {
        Ok(*self)
    }
}

/// A copy of a type as it is written.
pub fn copied_type<N: ExactClone>(alloc: Global, t: &TypeTree<N>) -> Result<TypeTree<N>, AllocError>
    ensures { IfOk result (λ u. u ≡ t.now) }
{
    let mut pointers = Seq::new(alloc);
    let mut rest = t;
    'pointers: loop {
        let (pointer, inner) = match rest {
            TypeTree::Int => return wrapped(alloc, pointers, TypeTree::Int),
            TypeTree::Unsigned => return wrapped(alloc, pointers, TypeTree::Unsigned),
            TypeTree::Char => return wrapped(alloc, pointers, TypeTree::Char),
            TypeTree::Void => return wrapped(alloc, pointers, TypeTree::Void),
            TypeTree::Struct(tag, pos) => {
                let tag = tag.exact_clone(alloc)?;
                return wrapped(alloc, pointers, TypeTree::Struct(tag, *pos));
            }
            TypeTree::Raw(inner, pos) => (Pointer::Raw(*pos), inner),
            TypeTree::One(inner) => (Pointer::One, inner),
            TypeTree::Arr(inner) => (Pointer::Arr, inner),
            TypeTree::Nt(inner) => (Pointer::Nt, inner),
        };
        pointers.push(pointer)?;
        rest = inner.get();
    }
}

fn copied_text<N, A>(alloc: Global, bytes: &Bytes) -> Result<Node<N, A>, AllocError>
    ensures { IfOk result (λ n. n ≡ Node.Text bytes.now) }
{
    let copy = Bytes::from_slice(alloc, bytes.as_slice())?;
    Ok(Node::Text(copy))
}

#[cycle(copied)]
fn copied_limits<N: ExactClone, A: ExactClone>(
    alloc: Global,
    limits: &Limits<N, A>,
) -> Result<Limits<N, A>, AllocError>
    ensures { IfOk result (λ l. l ≡ limits.now) }
{
    match limits {
        Limits::Count(e, at) => {
            let e = boxed_expr(alloc, e.get())?;
            Ok(Limits::Count(e, *at))
        }
        Limits::ByteCount(e, at) => {
            let e = boxed_expr(alloc, e.get())?;
            Ok(Limits::ByteCount(e, *at))
        }
        Limits::Between(e, f, at) => {
            let e = boxed_expr(alloc, e.get())?;
            let f = boxed_expr(alloc, f.get())?;
            Ok(Limits::Between(e, f, *at))
        }
        Limits::Unknown(at) => Ok(Limits::Unknown(*at)),
    }
}

/// The same bounds, if some are written.
#[cycle(copied)]
pub fn copied_bounds<N: ExactClone, A: ExactClone>(
    alloc: Global,
    bounds: &Option<Boxed<Limits<N, A>>>,
) -> Result<Option<Boxed<Limits<N, A>>>, AllocError>
    ensures { IfOk result (λ b. b ≡ bounds.now) }
{
    match bounds {
        Some(limits) => {
            let copy = copied_limits(alloc, limits.get())?;
            let boxed = Boxed::new(alloc, copy)?;
            Ok(Some(boxed))
        }
        None => Ok(None),
    }
}

#[cycle(copied)]
fn copied_node<N: ExactClone, A: ExactClone>(
    alloc: Global,
    node: &Node<N, A>,
) -> Result<Node<N, A>, AllocError>
    ensures { IfOk result (λ n. n ≡ node.now) }
{
    match node {
        Node::Number(n, unsigned) => Ok(Node::Number(*n, *unsigned)),
        Node::Text(bytes) => copied_text(alloc, bytes),
        Node::Null => Ok(Node::Null),
        Node::Name(n) => {
            let n = n.exact_clone(alloc)?;
            Ok(Node::Name(n))
        }
        Node::Un(op, e) => {
            let e = boxed_expr(alloc, e.get())?;
            Ok(Node::Un(*op, e))
        }
        Node::Bin(op, e, f) => {
            let e = boxed_expr(alloc, e.get())?;
            let f = boxed_expr(alloc, f.get())?;
            Ok(Node::Bin(*op, e, f))
        }
        Node::Pick(e, f, g) => {
            let e = boxed_expr(alloc, e.get())?;
            let f = boxed_expr(alloc, f.get())?;
            let g = boxed_expr(alloc, g.get())?;
            Ok(Node::Pick(e, f, g))
        }
        Node::Index(e, f) => {
            let e = boxed_expr(alloc, e.get())?;
            let f = boxed_expr(alloc, f.get())?;
            Ok(Node::Index(e, f))
        }
        Node::Dot(e, n, at) => {
            let e = boxed_expr(alloc, e.get())?;
            let n = n.exact_clone(alloc)?;
            Ok(Node::Dot(e, n, *at))
        }
        Node::Arrow(e, n, at) => {
            let e = boxed_expr(alloc, e.get())?;
            let n = n.exact_clone(alloc)?;
            Ok(Node::Arrow(e, n, *at))
        }
        Node::Cast(t, e) => {
            let t = copied_type(alloc, t)?;
            let e = boxed_expr(alloc, e.get())?;
            Ok(Node::Cast(t, e))
        }
        Node::Size(t) => {
            let t = copied_type(alloc, t)?;
            Ok(Node::Size(t))
        }
        Node::Trusted(t, e, l) => {
            let t = copied_type(alloc, t)?;
            let e = boxed_expr(alloc, e.get())?;
            let l = copied_bounds(alloc, l)?;
            Ok(Node::Trusted(t, e, l))
        }
        Node::Tested(t, e, l) => {
            let t = copied_type(alloc, t)?;
            let e = boxed_expr(alloc, e.get())?;
            let l = copied_bounds(alloc, l)?;
            Ok(Node::Tested(t, e, l))
        }
        Node::Call(n, es) => {
            let n = n.exact_clone(alloc)?;
            let es = copied_exprs(alloc, es.as_slice())?;
            Ok(Node::Call(n, es))
        }
        Node::Calloc(t, e, u) => {
            let t = copied_type(alloc, t)?;
            let e = boxed_expr(alloc, e.get())?;
            let u = copied_type(alloc, u)?;
            Ok(Node::Calloc(t, e, u))
        }
    }
}

/// The same expression.
#[cycle(copied)]
pub fn copied_expr<N: ExactClone, A: ExactClone>(
    alloc: Global,
    e: &Expr<N, A>,
) -> Result<Expr<N, A>, AllocError>
    ensures { IfOk result (λ c. c ≡ e.now) }
{
    let node = copied_node(alloc, &e.node)?;
    let note = e.note.exact_clone(alloc)?;
    Ok(Expr {
        node,
        pos: e.pos,
        note,
    })
}

#[cycle(copied)]
fn boxed_expr<N: ExactClone, A: ExactClone>(
    alloc: Global,
    e: &Expr<N, A>,
) -> Result<Boxed<Expr<N, A>>, AllocError>
    ensures { IfOk result (λ c. c ≡ e.now) }
{
    let copy = copied_expr(alloc, e)?;
    Boxed::new(alloc, copy)
}

#[cycle(copied)]
fn copied_exprs<N: ExactClone, A: ExactClone>(
    alloc: Global,
    es: &[Expr<N, A>],
) -> Result<Seq<Expr<N, A>>, AllocError>
    ensures { IfOk result (λ cs. cs ≡ es.now) }
{
    let mut all = Seq::new(alloc);
    for e in es {
        let copy = copied_expr(alloc, e)?;
        all.push(copy)?;
    }
    Ok(all)
}

fn copied_init<N: ExactClone, A: ExactClone>(
    alloc: Global,
    init: &Init<N, A>,
) -> Result<Init<N, A>, AllocError>
    ensures { IfOk result (λ i. i ≡ init.now) }
{
    match init {
        Init::Nothing => Ok(Init::Nothing),
        Init::One(e) => {
            let copy = boxed_expr(alloc, e.get())?;
            Ok(Init::One(copy))
        }
        Init::Many(es) => {
            let copies = copied_exprs(alloc, es.as_slice())?;
            Ok(Init::Many(copies))
        }
    }
}

/// The same declaration with another initialiser.
pub fn decl_with<N: ExactClone, A: ExactClone>(
    alloc: Global,
    d: &Decl<N, A>,
    init: Init<N, A>,
) -> Result<Decl<N, A>, AllocError>
    ensures { IfOk result (λ c. c ≡ record d.now { init = init }) }
{
    let ctype = copied_type(alloc, &d.ctype)?;
    let name = d.name.exact_clone(alloc)?;
    let bounds = copied_bounds(alloc, &d.bounds)?;
    Ok(Decl {
        ctype,
        name,
        length: d.length,
        bounds,
        init,
        pos: d.pos,
    })
}

fn copied_decl<N: ExactClone, A: ExactClone>(
    alloc: Global,
    d: &Decl<N, A>,
) -> Result<Decl<N, A>, AllocError>
    ensures { IfOk result (λ c. c ≡ d.now) }
{
    let init = copied_init(alloc, &d.init)?;
    decl_with(alloc, d, init)
}

/// The same declarations.
pub fn copied_decls<N: ExactClone, A: ExactClone>(
    alloc: Global,
    ds: &[Decl<N, A>],
) -> Result<Seq<Decl<N, A>>, AllocError>
    ensures { IfOk result (λ cs. cs ≡ ds.now) }
{
    let mut all = Seq::new(alloc);
    for d in ds {
        let copy = copied_decl(alloc, d)?;
        all.push(copy)?;
    }
    Ok(all)
}

/// The same head, in a box of its own.
pub fn boxed_head<N: ExactClone, A: ExactClone>(
    alloc: Global,
    h: &Head<N, A>,
) -> Result<Boxed<Head<N, A>>, AllocError>
    ensures { IfOk result (λ c. c ≡ h.now) }
{
    let copy = copied_head(alloc, h)?;
    Boxed::new(alloc, copy)
}

fn copied_head<N: ExactClone, A: ExactClone>(
    alloc: Global,
    h: &Head<N, A>,
) -> Result<Head<N, A>, AllocError>
    ensures { IfOk result (λ c. c ≡ h.now) }
{
    let result_type = copied_type(alloc, &h.result)?;
    let name = h.name.exact_clone(alloc)?;
    let params = copied_decls(alloc, h.params.as_slice())?;
    let bounds = copied_bounds(alloc, &h.bounds)?;
    Ok(Head {
        mode: h.mode,
        result: result_type,
        name,
        params,
        bounds,
        pos: h.pos,
    })
}
