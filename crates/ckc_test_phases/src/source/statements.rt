use super::expressions::{put_expr, put_exprs, put_limits};
use super::names::Written;
use super::types::put_type_tree;
use ckc_base::{Boxed, Mode};
use ckc_syntax::{Act, Decl, Init, Length, Limits, Stmt};
use ckc_test_trials::Page;

/// Writes a declaration, without its `;`.
fn put_decl<N: Written, A>(page: &mut Page, d: &Decl<N, A>) {
    put_type_tree(page, &d.ctype);
    page.put(" ");
    d.name.put(page);
    put_length(page, d.length);
    put_bounds(page, &d.bounds);
    match &d.init {
        Init::Nothing => {}
        Init::One(e) => {
            page.put(" = ");
            put_expr(page, e.get());
        }
        Init::Many(es) => {
            page.put(" = { ");
            put_exprs(page, es.as_slice());
            page.put(" }");
        }
    }
}

fn put_length(page: &mut Page, length: Length) {
    let number = match length {
        Length::Plain => return,
        Length::Raw(number, _) => number,
        Length::Checked(number) => {
            page.put(" _Checked");
            number
        }
        Length::Nt(number) => {
            page.put(" _Nt_checked");
            number
        }
    };
    page.put("[");
    if let Some(number) = number {
        page.put_number(i64::from(number));
    }
    page.put("]");
}

/// Writes the bounds of a declared object or of a result.
fn put_bounds<N: Written, A>(page: &mut Page, bounds: &Option<Boxed<Limits<N, A>>>) {
    if let Some(limits) = bounds {
        page.put(" : ");
        put_limits(page, limits.get());
    }
}

/// Writes a word for a mode, if there is one.
fn put_mode(page: &mut Page, mode: Option<Mode>) {
    match mode {
        None => {}
        Some(Mode::Checked) => page.put("_Checked "),
        Some(Mode::Unchecked) => page.put("_Unchecked "),
    }
}

/// Writes a statement in one line. The statements that an `if` or a loop has stand in braces.
#[cycle(stmt)]
pub fn put_statement<N: Written, A>(page: &mut Page, s: &Stmt<N, A>) {
    match &s.body {
        Act::Block(mode, statements) => {
            put_mode(page, *mode);
            put_statements(page, statements.as_slice());
        }
        Act::Bundle(statements) => {
            page.put("_Bundled ");
            put_statements(page, statements.as_slice());
        }
        Act::If(e, then, otherwise) => {
            page.put("if (");
            put_expr(page, e.get());
            page.put(") ");
            put_inner(page, then.get());
            if let Some(otherwise) = otherwise {
                page.put(" else ");
                put_inner(page, otherwise.get());
            }
        }
        Act::While(e, body) => {
            page.put("while (");
            put_expr(page, e.get());
            page.put(") ");
            put_inner(page, body.get());
        }
        Act::For(first, e, step, body) => {
            page.put("for (");
            put_part(page, first);
            page.put("; ");
            if let Some(e) = e {
                put_expr(page, e.get());
            }
            page.put("; ");
            put_part(page, step);
            page.put(") ");
            put_inner(page, body.get());
        }
        _ => {
            put_simple(page, &s.body);
            page.put(";");
        }
    }
}

/// Writes a statement that has no other in it, without its `;`.
fn put_simple<N: Written, A>(page: &mut Page, act: &Act<N, A>) {
    match act {
        Act::Local(d) => put_decl(page, d.get()),
        Act::Assign(e, f) => {
            put_expr(page, e.get());
            page.put(" = ");
            put_expr(page, f.get());
        }
        Act::Call(e) => put_expr(page, e.get()),
        Act::Return(None) => page.put("return"),
        Act::Return(Some(e)) => {
            page.put("return ");
            put_expr(page, e.get());
        }
        Act::Break => page.put("break"),
        Act::Continue => page.put("continue"),
        Act::Check(e) => {
            page.put("_Dynamic_check(");
            put_expr(page, e.get());
            page.put(")");
        }
        _ => {}
    }
}

/// Writes the first statement or the step of a loop.
fn put_part<N: Written, A>(page: &mut Page, part: &Option<Boxed<Stmt<N, A>>>) {
    if let Some(s) = part {
        put_simple(page, &s.get().body);
    }
}

#[cycle(stmt)]
fn put_statements<N: Written, A>(page: &mut Page, statements: &[Stmt<N, A>]) {
    page.put("{ ");
    for s in statements {
        put_statement(page, s);
        page.put(" ");
    }
    page.put("}");
}

/// Writes a statement in braces of its own.
#[cycle(stmt)]
fn put_inner<N: Written, A>(page: &mut Page, s: &Stmt<N, A>) {
    page.put("{ ");
    put_statement(page, s);
    page.put(" }");
}
