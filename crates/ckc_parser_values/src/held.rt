ghost use Rattle.std.specs.Prelude.{◌≡◌};
ghost use Rattle.ckc_parser_values.specs.code.Acts.{nothing};

use ckc_base::Pos;
use ckc_parser_grammar::{
    Arms, Bounds, CType, Declaration, Expression, Operation, Post, Setting, Statement, Step,
};
use ckc_parser_stacks::{Budget, Stack, Tokens};
use ckc_syntax::{Decl, Expr, Init, Item, Length, Spelling, Stmt};
use std::alloc::Global;

/// Which of the forms of its part a value has.
#[derive(Clone, Copy)]
pub enum Form {
    First,
    Second,
    Third,
}

/// A declaration before its type is known: the stars after the type stand with it.
#[derive(Drop)]
pub struct Slot<'a> {
    pub stars: Stack<Pos>,
    pub name: Spelling<'a>,
    pub pos: Pos,
    pub length: Length,
    pub bounds: Option<Bounds<'a>>,
    pub init: Init<Spelling<'a>, ()>,
}

/// The values, a stack for each sort, and what may still be copied.
pub struct Held<'a> {
    pub tokens: Tokens<'a>,
    pub forms: Stack<Form>,
    pub sizes: Stack<Option<u32>>,
    pub lengths: Stack<Length>,
    pub operators: Stack<Operation>,
    pub exprs: Stack<Expression<'a>>,
    pub expr_lists: Stack<Stack<Expr<Spelling<'a>, ()>>>,
    pub calls: Stack<Option<Stack<Expr<Spelling<'a>, ()>>>>,
    pub values: Stack<Option<Expression<'a>>>,
    pub one_post: Stack<Post<'a>>,
    pub posts: Stack<Stack<Post<'a>>>,
    pub steps: Stack<Stack<Step<'a>>>,
    pub arms: Stack<Option<Arms<'a>>>,
    pub increments: Stack<Option<Operation>>,
    pub settings: Stack<Option<Setting<'a>>>,
    pub types: Stack<CType<'a>>,
    pub stars: Stack<Stack<Pos>>,
    pub limits: Stack<Bounds<'a>>,
    pub bounds: Stack<Option<Bounds<'a>>>,
    pub inits: Stack<Init<Spelling<'a>, ()>>,
    pub slots: Stack<Slot<'a>>,
    pub slot_lists: Stack<Stack<Slot<'a>>>,
    pub decls: Stack<Declaration<'a>>,
    pub decl_lists: Stack<Stack<Decl<Spelling<'a>, ()>>>,
    pub stmts: Stack<Statement<'a>>,
    pub stmt_lists: Stack<Stack<Stmt<Spelling<'a>, ()>>>,
    pub parts: Stack<Option<Statement<'a>>>,
    pub items: Stack<Stack<Item<Spelling<'a>, ()>>>,
    pub copies: Budget,
}

impl<'a> Drop for Held<'a> {
    fn drop(self) {
        let Held {
            tokens: _tokens,
            forms: _forms,
            sizes: _sizes,
            lengths: _lengths,
            operators: _operators,
            exprs: _exprs,
            expr_lists: _expr_lists,
            calls: _calls,
            values: _values,
            one_post: _one_post,
            posts: _posts,
            steps: _steps,
            arms: _arms,
            increments: _increments,
            settings: _settings,
            types: _types,
            stars: _stars,
            limits: _limits,
            bounds: _bounds,
            inits: _inits,
            slots: _slots,
            slot_lists: _slot_lists,
            decls: _decls,
            decl_lists: _decl_lists,
            stmts: _stmts,
            stmt_lists: _stmt_lists,
            parts: _parts,
            items: _items,
            copies: _copies,
        } = self;
    }
}

impl<'a> Held<'a> {
    /// Empty stacks.
    pub fn new(alloc: Global) -> Held<'a>
        ensures { result ≡ nothing }
    {
        Held {
            tokens: Tokens::new(alloc),
            forms: Stack::new(alloc),
            sizes: Stack::new(alloc),
            lengths: Stack::new(alloc),
            operators: Stack::new(alloc),
            exprs: Stack::new(alloc),
            expr_lists: Stack::new(alloc),
            calls: Stack::new(alloc),
            values: Stack::new(alloc),
            one_post: Stack::new(alloc),
            posts: Stack::new(alloc),
            steps: Stack::new(alloc),
            arms: Stack::new(alloc),
            increments: Stack::new(alloc),
            settings: Stack::new(alloc),
            types: Stack::new(alloc),
            stars: Stack::new(alloc),
            limits: Stack::new(alloc),
            bounds: Stack::new(alloc),
            inits: Stack::new(alloc),
            slots: Stack::new(alloc),
            slot_lists: Stack::new(alloc),
            decls: Stack::new(alloc),
            decl_lists: Stack::new(alloc),
            stmts: Stack::new(alloc),
            stmt_lists: Stack::new(alloc),
            parts: Stack::new(alloc),
            items: Stack::new(alloc),
            copies: Budget::new(),
        }
    }
}
