//! The members of structures that pointers with known limits may point to.

ghost use Rattle.std.specs.Prelude.{◌≡◌, ◌++◌, IfOk, OnOk};
ghost use Rattle.std.specs.List.{flat_map, list_any};
ghost use Rattle.ckc_build_elaborate.specs.Shapes.{is_bare, names, is_run, run_of, shape_of, shapes_elaborated};

use ckc_base::{Seq, sum};
use ckc_build_values::members::offset_of;
use ckc_source::{MemberRun, Shape};
use ckc_typed::types::copied;
use ckc_types::{MemberBounds, MemberShape, StructShape, Structs};
use std::alloc::{AllocError, Global};

fn is_bare(bounds: MemberBounds) -> bool
    ensures { result ≡ is_bare bounds }
{
    match bounds {
        MemberBounds::Nothing => true,
        MemberBounds::Unknown | MemberBounds::NoForm => false,
        MemberBounds::Fixed(_) | MemberBounds::Named(_, _) => false,
    }
}

fn names(k: u32, bounds: MemberBounds) -> bool
    ensures { result ≡ names k bounds }
{
    match bounds {
        MemberBounds::Named(j, _) => j == k,
        MemberBounds::Nothing | MemberBounds::Unknown => false,
        MemberBounds::Fixed(_) | MemberBounds::NoForm => false,
    }
}

fn is_counted(members: &[MemberShape], k: u32) -> bool
    ensures { result ≡ list_any (λ n. names k n.bounds) members.now }
{
    members.iter().any(|n| names(k, n.bounds))
}

fn is_run(members: &[MemberShape], m: &MemberShape) -> bool
    ensures { result ≡ is_run members.now m.now }
{
    is_bare(m.bounds) && !is_counted(members, m.name)
}

fn add_run(
    alloc: Global,
    structs: &Structs,
    tag: u32,
    members: &[MemberShape],
    m: &MemberShape,
    all: &mut Seq<MemberRun>,
) -> Result<(), AllocError>
    ensures { OnOk result (all.new ≡ all.old ++ run_of structs.now tag members.now m.now) }
{
    if is_run(members, m) {
        let ctype = copied(alloc, &m.ctype)?;
        all.push(MemberRun {
            offset: offset_of(structs, tag, m.name),
            ctype,
        })
    } else {
        Ok(())
    }
}

fn runs(
    alloc: Global,
    structs: &Structs,
    tag: u32,
    members: &[MemberShape],
) -> Result<Seq<MemberRun>, AllocError>
    ensures { IfOk result (λ all. all ≡ flat_map (run_of structs.now tag members.now) members.now) }
{
    let mut all = Seq::new(alloc);
    for m in members {
        add_run(alloc, structs, tag, members, m, &mut all)?;
    }
    Ok(all)
}

fn add_shape(
    alloc: Global,
    structs: &Structs,
    tag: u32,
    s: &StructShape,
    all: &mut Seq<Shape>,
) -> Result<(), AllocError>
    ensures { OnOk result (all.new ≡ all.old ++ shape_of structs.now tag s.now) }
{
    let runs = runs(alloc, structs, tag, s.members.as_slice())?;
    all.push(Shape { runs })
}

/// The members of each structure that pointers with known limits may point to.
pub fn shapes(alloc: Global, structs: &Structs) -> Result<Seq<Shape>, AllocError>
    ensures { IfOk result (λ all. all ≡ shapes_elaborated structs.now) }
{
    let mut all = Seq::new(alloc);
    let mut tag = 0;
    let shapes = structs.shapes.as_slice();
    for s in shapes {
        add_shape(alloc, structs, tag, s, &mut all)?;
        tag = sum(tag, 1)?;
    }
    Ok(all)
}
