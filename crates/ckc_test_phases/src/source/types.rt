use super::names::Written;
use ckc_base::Boxed;
use ckc_syntax::TypeTree;
use ckc_test_trials::Page;
use ckc_types::{CType, Kind};

/// Writes a type, a structure by the number of its tag.
pub fn put_type(page: &mut Page, t: &CType) {
    match t {
        CType::Int => page.put("int"),
        CType::Unsigned => page.put("unsigned"),
        CType::Char => page.put("char"),
        CType::Void => page.put("void"),
        CType::Struct(tag) => {
            page.put("struct ");
            page.put_number(i64::from(*tag));
        }
        CType::Pointer(kind, inner) => {
            page.put(before(*kind));
            put_type(page, inner.get());
            page.put(behind(*kind));
        }
    }
}

/// What is written before the type that a pointer of this kind points to.
fn before(kind: Kind) -> &'static str {
    match kind {
        Kind::Raw => "",
        Kind::One => "_Ptr<",
        Kind::Arr => "_Array_ptr<",
        Kind::Nt => "_Nt_array_ptr<",
    }
}

fn behind(kind: Kind) -> &'static str {
    match kind {
        Kind::Raw => " *",
        Kind::One | Kind::Arr | Kind::Nt => ">",
    }
}

/// Writes a type as a tree has it.
#[cycle(types)]
pub fn put_type_tree<N: Written>(page: &mut Page, t: &TypeTree<N>) {
    match t {
        TypeTree::Int => page.put("int"),
        TypeTree::Unsigned => page.put("unsigned"),
        TypeTree::Char => page.put("char"),
        TypeTree::Void => page.put("void"),
        TypeTree::Struct(tag, _) => {
            page.put("struct ");
            tag.put(page);
        }
        TypeTree::Raw(inner, _) => put_pointer(page, Kind::Raw, inner),
        TypeTree::One(inner) => put_pointer(page, Kind::One, inner),
        TypeTree::Arr(inner) => put_pointer(page, Kind::Arr, inner),
        TypeTree::Nt(inner) => put_pointer(page, Kind::Nt, inner),
    }
}

#[cycle(types)]
fn put_pointer<N: Written>(page: &mut Page, kind: Kind, inner: &Boxed<TypeTree<N>>) {
    page.put(before(kind));
    put_type_tree(page, inner.get());
    page.put(behind(kind));
}
