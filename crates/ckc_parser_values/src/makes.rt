ghost use Rattle.std.specs.Prelude.{◌≡◌, ◌∷◌, ◌++◌, List, IfOk};
ghost use Rattle.ckc_parser_grammar.specs.declared.parts.Post.{Post};
ghost use Rattle.ckc_parser_grammar.specs.code.Trees as trees;
ghost use Rattle.ckc_parser_values.specs.code.Acts as a;

use crate::held::{Form, Slot};
use ckc_base::{Boxed, Mode, Pos};
use ckc_parser_grammar::{CType, Expression, Post, Statement, copied, expression, local_of};
use ckc_parser_stacks::Stack;
use ckc_syntax::{Decl, Head, Item, Node, Spelling, Stmt, TokenKind, TypeTree};
use std::alloc::{AllocError, Global};

/// An expression with one `[e]`, `.m` or `->m`.
fn with_post<'a>(
    alloc: Global,
    first: Expression<'a>,
    post: Post<'a>,
) -> Result<Expression<'a>, AllocError>
    ensures { IfOk result
        (λ e. (ps : List Post) → trees.posted e ps ≡ trees.posted first.entry (post.entry ∷ ps)) }
{
    match post {
        Post::Index(index, pos) => expression(alloc, Node::Index(first, index), pos),
        Post::Dot(name, at, pos) => expression(alloc, Node::Dot(first, name, at), pos),
        Post::Arrow(name, at, pos) => expression(alloc, Node::Arrow(first, name, at), pos),
    }
}

/// An expression with all that stands behind it.
pub fn posted<'a>(
    alloc: Global,
    first: Expression<'a>,
    posts: Stack<Post<'a>>,
) -> Result<Expression<'a>, AllocError>
    ensures { IfOk result (λ e. e ≡ trees.posted first.entry posts.entry) }
{
    let mut whole = first;
    let mut rest = posts;
    'posts: while let Some(post) = rest.pop() {
        whole = with_post(alloc, whole, post)?;
    }
    Ok(whole)
}

/// A type with its stars.
pub fn starred<'a>(
    alloc: Global,
    base: CType<'a>,
    stars: Stack<Pos>,
) -> Result<CType<'a>, AllocError>
    ensures { IfOk result (λ t. t ≡ trees.starred base.entry stars) }
{
    let mut whole = base;
    let mut rest = stars;
    'stars: while let Some(pos) = rest.pop() {
        whole = Boxed::new(alloc, TypeTree::Raw(whole, pos))?;
    }
    Ok(whole)
}

/// A declaration by its base, in a box.
pub fn declare<'a>(
    alloc: Global,
    base: CType<'a>,
    slot: Slot<'a>,
) -> Result<Boxed<Decl<Spelling<'a>, ()>>, AllocError>
    ensures { IfOk result (λ d. d ≡ a.declare base.entry slot.entry) }
{
    let decl = declared(alloc, base, slot)?;
    Boxed::new(alloc, decl)
}

/// A declaration by its base.
fn declared<'a>(
    alloc: Global,
    base: CType<'a>,
    slot: Slot<'a>,
) -> Result<Decl<Spelling<'a>, ()>, AllocError>
    ensures { IfOk result (λ d. d ≡ a.declare base.entry slot.entry) }
{
    let Slot {
        stars,
        name,
        pos,
        length,
        bounds,
        init,
    } = slot;
    let ctype = starred(alloc, base, stars)?;
    Ok(Decl {
        ctype: ctype.into_inner(),
        name,
        length,
        bounds,
        init,
        pos,
    })
}

/// Declarations by their base, of which each has a copy.
#[tactic(auto, using(crate::proofs::Tops::all_turned))]
pub fn declare_each<'a>(
    alloc: Global,
    base: &CType<'a>,
    slots: Stack<Slot<'a>>,
) -> Result<Stack<Decl<Spelling<'a>, ()>>, AllocError>
    ensures { IfOk result (λ ds. ds ≡ a.declare_each base.now slots.entry) }
{
    let mut rest = slots;
    let mut turned = Stack::new(alloc);
    'slots: while let Some(slot) = rest.pop() {
        let copy = copied(alloc, base.get())?;
        let whole = declared(alloc, copy, slot)?;
        turned.push(whole)?;
    }
    Ok(turned.turn())
}

/// Locals as statements, in front of others.
#[tactic(auto, using(crate::proofs::Tops::all_onto))]
pub fn put_locals<'a>(
    alloc: Global,
    decls: Stack<Decl<Spelling<'a>, ()>>,
    stmts: Stack<Stmt<Spelling<'a>, ()>>,
) -> Result<Stack<Stmt<Spelling<'a>, ()>>, AllocError>
    ensures { IfOk result (λ ss. ss ≡ trees.locals decls.entry ++ stmts.entry) }
{
    let mut rest = decls;
    let mut turned = Stack::new(alloc);
    'decls: while let Some(decl) = rest.pop() {
        let whole = Boxed::new(alloc, decl)?;
        turned.push(local_of(whole))?;
    }
    let mut all = stmts;
    all.put_all(turned.turn())?;
    Ok(all)
}

/// Objects as items.
#[tactic(auto, using(crate::proofs::Tops::all_turned))]
pub fn statics<'a>(
    alloc: Global,
    decls: Stack<Decl<Spelling<'a>, ()>>,
) -> Result<Stack<Item<Spelling<'a>, ()>>, AllocError>
    ensures { IfOk result (λ is. is ≡ trees.statics decls.entry) }
{
    let mut rest = decls;
    let mut turned = Stack::new(alloc);
    'decls: while let Some(decl) = rest.pop() {
        let whole = Boxed::new(alloc, decl)?;
        turned.push(Item::Static(whole))?;
    }
    Ok(turned.turn())
}

/// A function or a prototype.
pub fn function_of<'a>(
    head: Boxed<Head<Spelling<'a>, ()>>,
    body: Option<Statement<'a>>,
) -> Item<Spelling<'a>, ()>
    ensures { result ≡ trees.function_of head.entry body.entry }
{
    match body {
        None => Item::Proto(head),
        Some(body) => Item::Function(head, body),
    }
}

/// The value of a number or a character.
pub fn literal_node<'a>(kind: TokenKind) -> Node<Spelling<'a>, ()>
    ensures { result ≡ trees.literal kind }
{
    match kind {
        TokenKind::Number(number, unsigned) => Node::Number(number, unsigned),
        TokenKind::Character(byte) => Node::Number(u32::from(byte), false),
        _ => Node::Null,
    }
}

/// The mode of a form.
pub fn mode_of(form: Form) -> Mode
    ensures { result ≡ a.mode_of form }
{
    match form {
        Form::First => Mode::Checked,
        Form::Second => Mode::Unchecked,
        Form::Third => Mode::Checked,
    }
}
