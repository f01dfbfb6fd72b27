//! What the rules on effects ask of the parts of an expression.

ghost use Rattle.std.specs.Prelude.{◌≡◌};
ghost use Rattle.ckc_plain_barred.specs.Forms.{work_of, form_of, binary_form, unary_form, is_set, is_name, is_call, is_calloc, is_built_in, stays};

use ckc_syntax::{Expr, Name, Node, TreeOp};

/// What an operator does.
#[derive(Clone, Copy, Drop)]
pub enum Work {
    Sets,
    Steps(TreeOp),
    IfTrue,
    IfFalse,
    Computes,
}

/// What an expression is, as far as the rules on effects ask.
#[derive(Clone, Copy, Drop)]
pub enum Form {
    Name(Name),
    Call(Name),
    Calloc,
    Set,
    Step(TreeOp),
    Other,
}

/// What an operator does.
pub fn work_of(op: TreeOp) -> Work
    ensures { result ≡ work_of op }
{
    match op {
        TreeOp::Set => Work::Sets,
        TreeOp::PostInc => Work::Steps(TreeOp::Add),
        TreeOp::PostDec => Work::Steps(TreeOp::Sub),
        TreeOp::AndThen => Work::IfTrue,
        TreeOp::OrElse => Work::IfFalse,
        _ => Work::Computes,
    }
}

fn binary_form(work: Work) -> Form
    ensures { result ≡ binary_form work }
{
    match work {
        Work::Sets => Form::Set,
        _ => Form::Other,
    }
}

fn unary_form(work: Work) -> Form
    ensures { result ≡ unary_form work }
{
    match work {
        Work::Steps(by) => Form::Step(by),
        _ => Form::Other,
    }
}

/// Whether an operator is the assignment.
pub fn is_set(work: Work) -> bool
    ensures { result ≡ is_set work }
{
    match work {
        Work::Sets => true,
        _ => false,
    }
}

/// The form of an expression.
pub fn form_of(e: &Expr<Name, ()>) -> Form
    ensures { result ≡ form_of e.now }
{
    match &e.node {
        Node::Name(n) => Form::Name(*n),
        Node::Un(op, _) => unary_form(work_of(*op)),
        Node::Bin(op, _, _) => binary_form(work_of(*op)),
        Node::Call(n, _) => Form::Call(*n),
        Node::Calloc(_, _, _) => Form::Calloc,
        _ => Form::Other,
    }
}

/// Whether an expression is a call.
pub fn is_call(form: Form) -> bool
    ensures { result ≡ is_call form }
{
    match form {
        Form::Call(_) => true,
        _ => false,
    }
}

/// Whether an expression is a `calloc`.
pub fn is_calloc(form: Form) -> bool
    ensures { result ≡ is_calloc form }
{
    match form {
        Form::Calloc => true,
        _ => false,
    }
}

fn is_name(form: Form) -> bool
    ensures { result ≡ is_name form }
{
    match form {
        Form::Name(_) => true,
        _ => false,
    }
}

fn is_built_in(name: Name) -> bool
    ensures { result ≡ is_built_in name }
{
    match name {
        Name::Getchar => true,
        Name::Putchar => true,
        _ => false,
    }
}

/// Whether the right side of an assignment to a target is a call that is no effect.
pub fn stays(target: Form, right: Form) -> bool
    ensures { result ≡ stays target right }
{
    match right {
        Form::Call(n) => is_name(target) || is_built_in(n),
        _ => false,
    }
}
