use crate::Directive;
use ckc_base::{Boxed, Bytes, Mode, Pos, Seq};

/// The tree of a text. `N` is what stands for a name: its spelling at first, and once names are resolved the
/// declaration that it means. `A` is what a phase notes at each statement and expression.
///
/// A child stands in a box of its own, since the types contain one another.
#[derive(Drop)]
pub struct Tree<N, A> {
    pub items: Seq<Item<N, A>>,
}

/// A text whose names are resolved, with the number of its function `main`.
#[derive(Drop)]
pub struct NamedText {
    pub tree: Tree<Name, ()>,
    pub main: u32,
}

/// An item of a text: a directive, a tag line `struct name;`, a structure with its members, an object, a
/// prototype or a function (ISO C11, 6.9). A place is that of the tag.
pub enum Item<N, A> {
    Directive(Directive),
    Tag(N, Pos),
    Struct(N, Seq<Decl<N, A>>, Pos),
    Static(Boxed<Decl<N, A>>),
    Proto(Boxed<Head<N, A>>),
    Function(Boxed<Head<N, A>>, Boxed<Stmt<N, A>>),
}

impl<N: Drop, A: Drop> Drop for Item<N, A> {
    fn drop(self) {
        match self {
            Item::Directive(_directive) => {}
            Item::Tag(_name, _pos) => {}
            Item::Struct(_name, _members, _pos) => {}
            Item::Static(_decl) => {}
            Item::Proto(_head) => {}
            Item::Function(_head, _body) => {}
        }
    }
}

/// The head of a function: its mode, the type of its result, its name with its place, its parameters, and the
/// bounds of its result (Checked C specification 0.9, section 3, on checked scopes, and section 4, on bounds).
pub struct Head<N, A> {
    pub mode: Option<Mode>,
    pub result: TypeTree<N>,
    pub name: N,
    pub params: Seq<Decl<N, A>>,
    pub bounds: Option<Boxed<Limits<N, A>>>,
    pub pos: Pos,
}

impl<N: Drop, A: Drop> Drop for Head<N, A> {
    fn drop(self) {
        let Head {
            mode: _mode,
            result: _result,
            name: _name,
            params: _params,
            bounds: _bounds,
            pos: _pos,
        } = self;
    }
}

/// A type: `Raw` is `T *` with the place of the `*`, `One` is `_Ptr<T>`, `Arr` is `_Array_ptr<T>` and `Nt` is
/// `_Nt_array_ptr<T>` (Checked C specification 0.9, section 2). The place of a structure is that of its tag.
pub enum TypeTree<N> {
    Int,
    Unsigned,
    Char,
    Void,
    Struct(N, Pos),
    Raw(Boxed<TypeTree<N>>, Pos),
    One(Boxed<TypeTree<N>>),
    Arr(Boxed<TypeTree<N>>),
    Nt(Boxed<TypeTree<N>>),
}

// A loop, so that a long chain of pointers does not run out of stack. Inlined, it would make the frames of the functions
// that read types larger, and fewer types could stand within one another.
impl<N: Drop> Drop for TypeTree<N> {
    #[inline(never)]
    fn drop(mut self) {
        loop {
            match self {
                TypeTree::Int => return,
                TypeTree::Unsigned => return,
                TypeTree::Char => return,
                TypeTree::Void => return,
                TypeTree::Struct(_tag, _pos) => return,
                TypeTree::Raw(inner, _pos) => self = inner.into_inner(),
                TypeTree::One(inner) => self = inner.into_inner(),
                TypeTree::Arr(inner) => self = inner.into_inner(),
                TypeTree::Nt(inner) => self = inner.into_inner(),
            }
        }
    }
}

/// What a declared name is: no array, an array `[n]` with the place of its `[`, `_Checked[n]` or
/// `_Nt_checked[n]` (Checked C specification 0.9, section 2.4). The number may be left out.
#[derive(Clone, Copy, Drop)]
pub enum Length {
    Plain,
    Raw(Option<u32>, Pos),
    Checked(Option<u32>),
    Nt(Option<u32>),
}

/// A declared object, member, parameter or local, with the place of its name.
pub struct Decl<N, A> {
    pub ctype: TypeTree<N>,
    pub name: N,
    pub length: Length,
    pub bounds: Option<Boxed<Limits<N, A>>>,
    pub init: Init<N, A>,
    pub pos: Pos,
}

impl<N: Drop, A: Drop> Drop for Decl<N, A> {
    fn drop(self) {
        let Decl {
            ctype: _ctype,
            name: _name,
            length: _length,
            bounds: _bounds,
            init: _init,
            pos: _pos,
        } = self;
    }
}

/// What a declared object begins as: nothing is written, one expression, or a list in braces.
pub enum Init<N, A> {
    Nothing,
    One(Boxed<Expr<N, A>>),
    Many(Seq<Expr<N, A>>),
}

impl<N: Drop, A: Drop> Drop for Init<N, A> {
    fn drop(self) {
        match self {
            Init::Nothing => {}
            Init::One(_value) => {}
            Init::Many(_values) => {}
        }
    }
}

/// A bounds expression (Checked C specification 0.9, section 3.1): `count(e)`, `byte_count(e)`,
/// `bounds(e, f)` or `bounds(unknown)`, each with the place of its first token.
#[cycle(expr)]
pub enum Limits<N, A> {
    Count(Boxed<Expr<N, A>>, Pos),
    ByteCount(Boxed<Expr<N, A>>, Pos),
    Between(Boxed<Expr<N, A>>, Boxed<Expr<N, A>>, Pos),
    Unknown(Pos),
}

impl<N: Drop, A: Drop> Drop for Limits<N, A> {
    #[cycle(expr_drop)]
    fn drop(self) {
        match self {
            Limits::Count(e, _pos) => {
                drop(e.into_inner());
            }
            Limits::ByteCount(e, _pos) => {
                drop(e.into_inner());
            }
            Limits::Between(e, f, _pos) => {
                drop(e.into_inner());
                drop(f.into_inner());
            }
            Limits::Unknown(_pos) => {}
        }
    }
}

/// A statement with its place: an assignment at its `=`, a local at its name, every other one at its first
/// token.
#[cycle(stmt)]
pub struct Stmt<N, A> {
    pub body: Act<N, A>,
    pub pos: Pos,
    pub note: A,
}

impl<N: Drop, A: Drop> Drop for Stmt<N, A> {
    #[cycle(stmt_drop)]
    fn drop(self) {
        let Stmt {
            body: _body,
            pos: _pos,
            note: _note,
        } = self;
    }
}

/// The statements (ISO C11, 6.8), with `_Dynamic_check` and `_Bundled` of Checked C.
#[cycle(stmt)]
pub enum Act<N, A> {
    Block(Option<Mode>, Seq<Stmt<N, A>>),
    Empty,
    Local(Boxed<Decl<N, A>>),
    Assign(Boxed<Expr<N, A>>, Boxed<Expr<N, A>>),
    Call(Boxed<Expr<N, A>>),
    If(Boxed<Expr<N, A>>, Boxed<Stmt<N, A>>, Option<Boxed<Stmt<N, A>>>),
    While(Boxed<Expr<N, A>>, Boxed<Stmt<N, A>>),
    For(
        Option<Boxed<Stmt<N, A>>>,
        Option<Boxed<Expr<N, A>>>,
        Option<Boxed<Stmt<N, A>>>,
        Boxed<Stmt<N, A>>,
    ),
    Return(Option<Boxed<Expr<N, A>>>),
    Break,
    Continue,
    Check(Boxed<Expr<N, A>>),
    Bundle(Seq<Stmt<N, A>>),
}

impl<N: Drop, A: Drop> Drop for Act<N, A> {
    #[cycle(stmt_drop)]
    fn drop(self) {
        match self {
            Act::Block(_mode, stmts) => {
                drop_stmts(stmts);
            }
            Act::Empty => {}
            Act::Local(_decl) => {}
            Act::Assign(_e, _f) => {}
            Act::Call(_e) => {}
            Act::If(_e, s, t) => {
                drop(s.into_inner());
                drop_part(t);
            }
            Act::While(_e, s) => {
                drop(s.into_inner());
            }
            Act::For(first, _e, step, body) => {
                drop_part(first);
                drop_part(step);
                drop(body.into_inner());
            }
            Act::Return(_e) => {}
            Act::Break => {}
            Act::Continue => {}
            Act::Check(_e) => {}
            Act::Bundle(stmts) => {
                drop_stmts(stmts);
            }
        }
    }
}

/// An expression with its place: a literal or name at its first byte, an operator, `[`, `.`, `->`, `?` at that
/// token, a call at the called name, a cast at its `(`, `sizeof` and a bounds cast at the keyword.
#[cycle(expr)]
pub struct Expr<N, A> {
    pub node: Node<N, A>,
    pub pos: Pos,
    pub note: A,
}

impl<N: Drop, A: Drop> Drop for Expr<N, A> {
    #[cycle(expr_drop)]
    fn drop(self) {
        let Expr {
            node: _node,
            pos: _pos,
            note: _note,
        } = self;
    }
}

/// The expressions (ISO C11, 6.5), with the bounds casts of Checked C: `Tested` is `_Dynamic_bounds_cast` and
/// `Trusted` is `_Assume_bounds_cast`. The flag of a number says that its type is `unsigned`. A member that is
/// named has the place of its name.
#[cycle(expr)]
pub enum Node<N, A> {
    Number(u32, bool),
    Text(Bytes),
    Null,
    Name(N),
    Un(TreeOp, Boxed<Expr<N, A>>),
    Bin(TreeOp, Boxed<Expr<N, A>>, Boxed<Expr<N, A>>),
    Pick(Boxed<Expr<N, A>>, Boxed<Expr<N, A>>, Boxed<Expr<N, A>>),
    Index(Boxed<Expr<N, A>>, Boxed<Expr<N, A>>),
    Dot(Boxed<Expr<N, A>>, N, Pos),
    Arrow(Boxed<Expr<N, A>>, N, Pos),
    Cast(TypeTree<N>, Boxed<Expr<N, A>>),
    Size(TypeTree<N>),
    Trusted(TypeTree<N>, Boxed<Expr<N, A>>, Option<Boxed<Limits<N, A>>>),
    Tested(TypeTree<N>, Boxed<Expr<N, A>>, Option<Boxed<Limits<N, A>>>),
    Call(N, Seq<Expr<N, A>>),
    Calloc(TypeTree<N>, Boxed<Expr<N, A>>, TypeTree<N>),
}

impl<N: Drop, A: Drop> Drop for Node<N, A> {
    #[cycle(expr_drop)]
    fn drop(self) {
        match self {
            Node::Number(_n, _unsigned) => {}
            Node::Text(_bytes) => {}
            Node::Null => {}
            Node::Name(_name) => {}
            Node::Un(_op, e) => {
                drop(e.into_inner());
            }
            Node::Bin(_op, e, f) => {
                drop(e.into_inner());
                drop(f.into_inner());
            }
            Node::Pick(e, f, g) => {
                drop(e.into_inner());
                drop(f.into_inner());
                drop(g.into_inner());
            }
            Node::Index(e, f) => {
                drop(e.into_inner());
                drop(f.into_inner());
            }
            Node::Dot(e, _name, _pos) => {
                drop(e.into_inner());
            }
            Node::Arrow(e, _name, _pos) => {
                drop(e.into_inner());
            }
            Node::Cast(_t, e) => {
                drop(e.into_inner());
            }
            Node::Size(_t) => {}
            Node::Trusted(_t, e, limits) => {
                drop(e.into_inner());
                drop_bounds(limits);
            }
            Node::Tested(_t, e, limits) => {
                drop(e.into_inner());
                drop_bounds(limits);
            }
            Node::Call(_name, es) => {
                drop_exprs(es);
            }
            Node::Calloc(_t, e, _u) => {
                drop(e.into_inner());
            }
        }
    }
}

/// The operators. The first six are unary `-`, `+`, `!`, `~`, `*` and `&`; the others are `||`, `&&`, `|`, `^`,
/// `&`, `==`, `!=`, `<`, `<=`, `>`, `>=`, `<<`, `>>`, `+`, `-`, `*`, `/` and `%`. The last three change their operand
/// within an expression: `Set` is the binary `=`, `PostInc` and `PostDec` are the unary `++` and `--` after it.
#[derive(Clone, Copy)]
pub enum TreeOp {
    Minus,
    Plus,
    Not,
    Flip,
    Deref,
    Address,
    OrElse,
    AndThen,
    Or,
    Xor,
    And,
    Eq,
    Ne,
    Lt,
    Le,
    Gt,
    Ge,
    Shl,
    Shr,
    Add,
    Sub,
    Mul,
    Div,
    Rem,
    Set,
    PostInc,
    PostDec,
}

/// What a name means once it is resolved: a local of the function, a static, a function, a tag or a member by
/// its number, or one of the two functions that every text may call.
#[derive(Clone, Copy, Debug)]
pub enum Name {
    Local(u32),
    Static(u32),
    Function(u32),
    Tag(u32),
    Member(u32),
    Getchar,
    Putchar,
}

#[cycle(expr_drop)]
fn drop_bounds<N: Drop, A: Drop>(bounds: Option<Boxed<Limits<N, A>>>) {
    if let Some(limits) = bounds {
        drop(limits.into_inner());
    }
}

#[cycle(stmt_drop)]
fn drop_part<N: Drop, A: Drop>(part: Option<Boxed<Stmt<N, A>>>) {
    if let Some(stmt) = part {
        drop(stmt.into_inner());
    }
}

#[cycle(expr_drop)]
fn drop_exprs<N: Drop, A: Drop>(exprs: Seq<Expr<N, A>>) {
    let mut rest = exprs.into_vec();
    while let Some(e) = rest.pop() {
        drop(e);
    }
    rest.destroy_empty();
}

#[cycle(stmt_drop)]
fn drop_stmts<N: Drop, A: Drop>(stmts: Seq<Stmt<N, A>>) {
    let mut rest = stmts.into_vec();
    while let Some(s) = rest.pop() {
        drop(s);
    }
    rest.destroy_empty();
}
