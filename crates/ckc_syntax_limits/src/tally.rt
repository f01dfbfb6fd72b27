//! How much there is in a part of a tree.

ghost use Rattle.std.specs.Prelude.{◌≡◌, flat_map};
ghost use Rattle.ckc_syntax_limits.specs.code.Tally.{counted, tallied, nothing};
ghost use Rattle.ckc_syntax_limits.specs.Marks.{node, local, text, function, static, marks_of_limits, marks_of_node, marks_of_expr, marks_of_bounds, marks_of_init, marks_of_decl, marks_of_value, marks_of_part, marks_of_act, marks_of_stmt, marks_of_param, marks_of_head, marks_of_item};

use ckc_base::Boxed;
use ckc_syntax::{Act, Decl, Expr, Head, Init, Item, Limits, Node, Stmt};

/// Counts that stand still at the end of their type.
#[derive(Clone, Copy)]
pub struct Tally {
    pub nodes: u32,
    pub locals: u32,
    pub texts: u32,
    pub functions: u32,
    pub statics: u32,
}

impl Tally {
    /// The counts of nothing.
    pub fn none() -> Tally
        ensures { result ≡ nothing }
    {
        Tally {
            nodes: 0,
            locals: 0,
            texts: 0,
            functions: 0,
            statics: 0,
        }
    }

    fn node(self) -> Tally
        ensures { result ≡ counted self node }
    {
        Tally {
            nodes: self.nodes.saturating_add(1),
            ..self
        }
    }

    fn local(self) -> Tally
        ensures { result ≡ counted self local }
    {
        Tally {
            locals: self.locals.saturating_add(1),
            ..self
        }
    }

    fn text(self) -> Tally
        ensures { result ≡ counted self text }
    {
        Tally {
            texts: self.texts.saturating_add(1),
            ..self
        }
    }

    fn function(self) -> Tally
        ensures { result ≡ counted self function }
    {
        Tally {
            functions: self.functions.saturating_add(1),
            ..self
        }
    }

    fn object(self) -> Tally
        ensures { result ≡ counted self static }
    {
        Tally {
            statics: self.statics.saturating_add(1),
            ..self
        }
    }
}

#[cycle(expr_tally)]
#[tactic(auto, using(crate::proofs::Tallies::tallied_append))]
fn limits_tally<N, A>(limits: &Limits<N, A>, so_far: Tally) -> Tally
    ensures { result ≡ tallied so_far (marks_of_limits limits.now) }
{
    match limits {
        Limits::Count(e, _) | Limits::ByteCount(e, _) => expr_tally(e.get(), so_far),
        Limits::Between(e, f, _) => expr_tally(f.get(), expr_tally(e.get(), so_far)),
        Limits::Unknown(_) => so_far,
    }
}

#[cycle(expr_tally)]
#[tactic(auto, using(crate::proofs::Tallies::tallied_append))]
fn node_tally<N, A>(node: &Node<N, A>, so_far: Tally) -> Tally
    ensures { result ≡ tallied so_far (marks_of_node node.now) }
{
    match node {
        Node::Number(_, _) | Node::Null | Node::Name(_) | Node::Size(_) => so_far,
        Node::Text(_) => so_far.text(),
        Node::Un(_, e) | Node::Dot(e, _, _) | Node::Arrow(e, _, _) => expr_tally(e.get(), so_far),
        Node::Cast(_, e) | Node::Calloc(_, e, _) => expr_tally(e.get(), so_far),
        Node::Bin(_, e, f) => expr_tally(f.get(), expr_tally(e.get(), so_far)),
        Node::Index(e, f) => expr_tally(f.get(), expr_tally(e.get(), so_far)),
        Node::Pick(e, f, g) => {
            let so_far = expr_tally(f.get(), expr_tally(e.get(), so_far));
            expr_tally(g.get(), so_far)
        }
        Node::Trusted(_, e, limits) => bounds_tally(limits, expr_tally(e.get(), so_far)),
        Node::Tested(_, e, limits) => bounds_tally(limits, expr_tally(e.get(), so_far)),
        Node::Call(_, es) => exprs_tally(es.as_slice(), so_far),
    }
}

#[cycle(expr_tally)]
fn expr_tally<N, A>(e: &Expr<N, A>, so_far: Tally) -> Tally
    ensures { result ≡ tallied so_far (marks_of_expr e.now) }
{
    node_tally(&e.node, so_far.node())
}

#[cycle(expr_tally)]
fn exprs_tally<N, A>(es: &[Expr<N, A>], so_far: Tally) -> Tally
    ensures { result ≡ tallied so_far (flat_map marks_of_expr es.now) }
{
    let mut tally = so_far;
    for e in es {
        tally = expr_tally(e, tally);
    }
    tally
}

#[cycle(expr_tally)]
fn bounds_tally<N, A>(bounds: &Option<Boxed<Limits<N, A>>>, so_far: Tally) -> Tally
    ensures { result ≡ tallied so_far (marks_of_bounds bounds.now) }
{
    match bounds {
        None => so_far,
        Some(limits) => limits_tally(limits.get(), so_far),
    }
}

fn value_tally<N, A>(value: &Option<Boxed<Expr<N, A>>>, so_far: Tally) -> Tally
    ensures { result ≡ tallied so_far (marks_of_value value.now) }
{
    match value {
        None => so_far,
        Some(e) => expr_tally(e.get(), so_far),
    }
}

fn init_tally<N, A>(init: &Init<N, A>, so_far: Tally) -> Tally
    ensures { result ≡ tallied so_far (marks_of_init init.now) }
{
    match init {
        Init::Nothing => so_far,
        Init::One(e) => expr_tally(e.get(), so_far),
        Init::Many(es) => exprs_tally(es.as_slice(), so_far),
    }
}

#[tactic(auto, using(crate::proofs::Tallies::tallied_append))]
fn decl_tally<N, A>(decl: &Decl<N, A>, so_far: Tally) -> Tally
    ensures { result ≡ tallied so_far (marks_of_decl decl.now) }
{
    init_tally(&decl.init, bounds_tally(&decl.bounds, so_far.node()))
}

fn param_tally<N, A>(decl: &Decl<N, A>, so_far: Tally) -> Tally
    ensures { result ≡ tallied so_far (marks_of_param decl.now) }
{
    decl_tally(decl, so_far.local())
}

fn members_tally<N, A>(members: &[Decl<N, A>], so_far: Tally) -> Tally
    ensures { result ≡ tallied so_far (flat_map marks_of_decl members.now) }
{
    let mut tally = so_far;
    for member in members {
        tally = decl_tally(member, tally);
    }
    tally
}

fn params_tally<N, A>(params: &[Decl<N, A>], so_far: Tally) -> Tally
    ensures { result ≡ tallied so_far (flat_map marks_of_param params.now) }
{
    let mut tally = so_far;
    for param in params {
        tally = param_tally(param, tally);
    }
    tally
}

#[cycle(stmt_tally)]
#[tactic(auto, using(crate::proofs::Tallies::tallied_append))]
fn act_tally<N, A>(act: &Act<N, A>, so_far: Tally) -> Tally
    ensures { result ≡ tallied so_far (marks_of_act act.now) }
{
    match act {
        Act::Empty | Act::Break | Act::Continue => so_far,
        Act::Block(_, stmts) => stmts_tally(stmts.as_slice(), so_far),
        Act::Bundle(stmts) => stmts_tally(stmts.as_slice(), so_far),
        Act::Local(decl) => param_tally(decl.get(), so_far),
        Act::Assign(e, f) => expr_tally(f.get(), expr_tally(e.get(), so_far)),
        Act::Call(e) | Act::Check(e) => expr_tally(e.get(), so_far),
        Act::If(e, s, otherwise) => {
            let so_far = stmt_tally(s.get(), expr_tally(e.get(), so_far));
            part_tally(otherwise, so_far)
        }
        Act::While(e, s) => stmt_tally(s.get(), expr_tally(e.get(), so_far)),
        Act::For(first, e, step, body) => {
            let so_far = value_tally(e, part_tally(first, so_far));
            stmt_tally(body.get(), part_tally(step, so_far))
        }
        Act::Return(value) => value_tally(value, so_far),
    }
}

#[cycle(stmt_tally)]
fn stmt_tally<N, A>(stmt: &Stmt<N, A>, so_far: Tally) -> Tally
    ensures { result ≡ tallied so_far (marks_of_stmt stmt.now) }
{
    act_tally(&stmt.body, so_far.node())
}

#[cycle(stmt_tally)]
fn part_tally<N, A>(part: &Option<Boxed<Stmt<N, A>>>, so_far: Tally) -> Tally
    ensures { result ≡ tallied so_far (marks_of_part part.now) }
{
    match part {
        None => so_far,
        Some(s) => stmt_tally(s.get(), so_far),
    }
}

#[cycle(stmt_tally)]
fn stmts_tally<N, A>(stmts: &[Stmt<N, A>], so_far: Tally) -> Tally
    ensures { result ≡ tallied so_far (flat_map marks_of_stmt stmts.now) }
{
    let mut tally = so_far;
    for stmt in stmts {
        tally = stmt_tally(stmt, tally);
    }
    tally
}

#[tactic(auto, using(crate::proofs::Tallies::tallied_append))]
fn head_tally<N, A>(head: &Head<N, A>, so_far: Tally) -> Tally
    ensures { result ≡ tallied so_far (marks_of_head head.now) }
{
    let so_far = params_tally(head.params.as_slice(), so_far.node());
    bounds_tally(&head.bounds, so_far)
}

/// The counts so far, with those of an item.
#[tactic(auto, using(crate::proofs::Tallies::tallied_append))]
pub fn item_tally<N, A>(item: &Item<N, A>, so_far: Tally) -> Tally
    ensures { result ≡ tallied so_far (marks_of_item item.now) }
{
    match item {
        Item::Directive(_) | Item::Tag(_, _) => so_far,
        Item::Struct(_, members, _) => members_tally(members.as_slice(), so_far),
        Item::Static(decl) => decl_tally(decl.get(), so_far.object()),
        Item::Proto(head) => head_tally(head.get(), so_far),
        Item::Function(head, body) => {
            stmt_tally(body.get(), head_tally(head.get(), so_far.function()))
        }
    }
}
