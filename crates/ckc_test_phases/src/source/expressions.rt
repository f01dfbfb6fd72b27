use super::names::Written;
use super::put_between;
use super::types::put_type_tree;
use ckc_base::Boxed;
use ckc_syntax::{Expr, Limits, Node, TreeOp, TypeTree};
use ckc_test_trials::Page;

/// Writes an expression. An operand that is an operation itself stands in parentheses; one that ends in `]`, `)` or a
/// member does not.
pub fn put_expr<N: Written, A>(page: &mut Page, e: &Expr<N, A>) {
    put_node(page, &e.node);
}

#[cycle(expr)]
fn put_node<N: Written, A>(page: &mut Page, node: &Node<N, A>) {
    match node {
        Node::Number(number, unsigned) => put_number(page, *number, *unsigned),
        Node::Text(bytes) => put_text(page, bytes.as_slice()),
        Node::Null => page.put("NULL"),
        Node::Name(name) => name.put(page),
        Node::Un(op, e) => put_unary(page, *op, e.get()),
        Node::Bin(op, e, f) => {
            put_operand(page, e.get());
            page.put(" ");
            page.put(sign(*op));
            page.put(" ");
            put_operand(page, f.get());
        }
        Node::Pick(e, f, g) => {
            put_operand(page, e.get());
            page.put(" ? ");
            put_operand(page, f.get());
            page.put(" : ");
            put_operand(page, g.get());
        }
        Node::Index(e, f) => {
            put_operand(page, e.get());
            page.put("[");
            put_node(page, &f.get().node);
            page.put("]");
        }
        Node::Dot(e, name, _) => {
            put_operand(page, e.get());
            page.put(".");
            name.put(page);
        }
        Node::Arrow(e, name, _) => {
            put_operand(page, e.get());
            page.put("->");
            name.put(page);
        }
        Node::Cast(t, e) => {
            put_in_parentheses(page, t);
            put_operand(page, e.get());
        }
        Node::Size(t) => {
            page.put("sizeof");
            put_in_parentheses(page, t);
        }
        Node::Trusted(t, e, limits) => {
            put_bounds_cast(page, "_Assume_bounds_cast<", t);
            put_node(page, &e.get().node);
            put_bounds(page, limits);
        }
        Node::Tested(t, e, limits) => {
            put_bounds_cast(page, "_Dynamic_bounds_cast<", t);
            put_node(page, &e.get().node);
            put_bounds(page, limits);
        }
        Node::Call(name, es) => {
            name.put(page);
            page.put("(");
            put_exprs(page, es.as_slice());
            page.put(")");
        }
        Node::Calloc(t, e, size) => {
            put_bounds_cast(page, "calloc<", t);
            put_node(page, &e.get().node);
            page.put(", sizeof");
            put_in_parentheses(page, size);
            page.put(")");
        }
    }
}

/// Writes a unary operator with its operand, `++` and `--` after it.
#[cycle(expr)]
fn put_unary<N: Written, A>(page: &mut Page, op: TreeOp, e: &Expr<N, A>) {
    let after = matches!(op, TreeOp::PostInc | TreeOp::PostDec);
    if !after {
        page.put(sign(op));
    }
    put_operand(page, e);
    if after {
        page.put(sign(op));
    }
}

#[cycle(expr)]
fn put_operand<N: Written, A>(page: &mut Page, e: &Expr<N, A>) {
    let parentheses = is_operation(&e.node);
    if parentheses {
        page.put("(");
    }
    put_node(page, &e.node);
    if parentheses {
        page.put(")");
    }
}

fn is_operation<N, A>(node: &Node<N, A>) -> bool {
    matches!(
        node,
        Node::Un(_, _) | Node::Bin(_, _, _) | Node::Pick(_, _, _) | Node::Cast(_, _)
    )
}

/// Writes expressions apart by commas.
#[cycle(expr)]
pub fn put_exprs<N: Written, A>(page: &mut Page, es: &[Expr<N, A>]) {
    for (index, e) in es.iter().enumerate() {
        put_between(page, index, ", ");
        put_node(page, &e.node);
    }
}

/// Writes a bounds expression.
#[cycle(expr)]
pub fn put_limits<N: Written, A>(page: &mut Page, limits: &Limits<N, A>) {
    match limits {
        Limits::Count(e, _) => {
            page.put("count(");
            put_node(page, &e.get().node);
        }
        Limits::ByteCount(e, _) => {
            page.put("byte_count(");
            put_node(page, &e.get().node);
        }
        Limits::Between(e, f, _) => {
            page.put("bounds(");
            put_node(page, &e.get().node);
            page.put(", ");
            put_node(page, &f.get().node);
        }
        Limits::Unknown(_) => page.put("bounds(unknown"),
    }
    page.put(")");
}

/// Ends a bounds cast.
#[cycle(expr)]
fn put_bounds<N: Written, A>(page: &mut Page, bounds: &Option<Boxed<Limits<N, A>>>) {
    if let Some(limits) = bounds {
        page.put(", ");
        put_limits(page, limits.get());
    }
    page.put(")");
}

/// Begins a bounds cast or a `calloc`.
fn put_bounds_cast<N: Written>(page: &mut Page, word: &str, t: &TypeTree<N>) {
    page.put(word);
    put_type_tree(page, t);
    page.put(">(");
}

fn put_in_parentheses<N: Written>(page: &mut Page, t: &TypeTree<N>) {
    page.put("(");
    put_type_tree(page, t);
    page.put(")");
}

fn put_number(page: &mut Page, number: u32, unsigned: bool) {
    page.put_number(i64::from(number));
    if unsigned {
        page.put("u");
    }
}

/// Writes the bytes of a string, those that are no printable characters by three octal digits.
fn put_text(page: &mut Page, bytes: &[u8]) {
    page.put("\"");
    for byte in bytes {
        put_character(page, *byte);
    }
    page.put("\"");
}

/// Writes a byte of a string literal.
fn put_character(page: &mut Page, byte: u8) {
    match byte {
        b'"' | b'\\' => {
            page.put("\\");
            page.put_bytes(&[byte]);
        }
        b' '..=b'~' => page.put_bytes(&[byte]),
        _ => {
            page.put("\\");
            page.put_number(i64::from(byte / 64));
            page.put_number(i64::from(byte / 8 % 8));
            page.put_number(i64::from(byte % 8));
        }
    }
}

/// An operator.
fn sign(op: TreeOp) -> &'static str {
    match op {
        TreeOp::Minus | TreeOp::Sub => "-",
        TreeOp::Plus | TreeOp::Add => "+",
        TreeOp::Not => "!",
        TreeOp::Flip => "~",
        TreeOp::Deref | TreeOp::Mul => "*",
        TreeOp::Address | TreeOp::And => "&",
        TreeOp::OrElse => "||",
        TreeOp::AndThen => "&&",
        TreeOp::Or => "|",
        TreeOp::Xor => "^",
        TreeOp::Eq => "==",
        TreeOp::Ne => "!=",
        TreeOp::Lt => "<",
        TreeOp::Le => "<=",
        TreeOp::Gt => ">",
        TreeOp::Ge => ">=",
        TreeOp::Shl => "<<",
        TreeOp::Shr => ">>",
        TreeOp::Div => "/",
        TreeOp::Rem => "%",
        TreeOp::Set => "=",
        TreeOp::PostInc => "++",
        TreeOp::PostDec => "--",
    }
}
