//! The modes in which the parts of a text are judged.

ghost use Rattle.std.specs.Prelude.{◌≡◌};
ghost use Rattle.ckc_syntax.specs.declared.tree.Act.{out-Act};
ghost use Rattle.ckc_typed.specs.Statements.{own_mode, body_mode};
ghost use Rattle.ckc_typed.specs.Walk.{head_mode, mode_of_directive, pragma_after};

use ckc_base::Mode;
use ckc_syntax::{Act, Directive, Head, Item, Name, Stmt};

/// The mode of a head, by that of the pragma before it.
pub fn head_mode<N, A>(pragma: Mode, h: &Head<N, A>) -> Mode
    ensures { result ≡ head_mode pragma h.now }
{
    h.mode.unwrap_or(pragma)
}

fn own_mode<A>(act: &Act<Name, A>) -> Option<Mode>
    ensures { result ≡ own_mode (out-Act Name A act.now) }
{
    match act {
        Act::Block(mode, _) => *mode,
        _ => None,
    }
}

/// The mode of the body of a function, by that of its head.
pub fn body_mode<A>(mode: Mode, body: &Stmt<Name, A>) -> Mode
    ensures { result ≡ body_mode mode body.now }
{
    own_mode(&body.body).unwrap_or(mode)
}

fn mode_of_directive(pragma: Mode, d: Directive) -> Mode
    ensures { result ≡ mode_of_directive pragma d }
{
    match d {
        Directive::ScopeOn => Mode::Checked,
        Directive::ScopeOff => Mode::Unchecked,
        Directive::Stdio | Directive::Stdlib | Directive::Stdchecked => pragma,
    }
}

/// The mode of the pragma after an item.
pub fn pragma_after<N, A>(pragma: Mode, item: &Item<N, A>) -> Mode
    ensures { result ≡ pragma_after pragma item.now }
{
    match item {
        Item::Directive(d) => mode_of_directive(pragma, *d),
        Item::Tag(_, _) | Item::Struct(_, _, _) | Item::Static(_) => pragma,
        Item::Proto(_) | Item::Function(_, _) => pragma,
    }
}
