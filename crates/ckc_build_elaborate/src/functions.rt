//! Functions.

ghost use Rattle.std.specs.Prelude.{◌≡◌, ◌+◌, ◌++◌, IfOk, OnOk, map};
ghost use Rattle.ckc_source.specs.Code.{function_of};
ghost use Rattle.ckc_build_elaborate.specs.Objects.{count_declared};
ghost use Rattle.ckc_build_elaborate.specs.Functions.{function_elaborated, functions_in, functions_elaborated};

use crate::interfaces::interfaces;
use crate::literals::{in_head, in_item};
use crate::statements::stmt;
use ckc_base::{Seq, sum};
use ckc_build_results::result_limits;
use ckc_build_values::numbers::number;
use ckc_build_values::texts::Text;
use ckc_source::{FunctionTree, Spot};
use ckc_syntax::{Head, Item, Name, Stmt};
use ckc_typed::Note;
use ckc_typed::types::type_written;
use ckc_typing_environment::locals::variables_of;
use std::alloc::{AllocError, Global};

fn function(
    alloc: Global,
    typed: &Text,
    h: &Head<Name, Note>,
    body: &Stmt<Name, Note>,
    first: u32,
) -> Result<FunctionTree, AllocError>
    ensures { IfOk result
        (λ f. function_of f ≡ function_elaborated typed.now first h.now body.now) }
{
    let mode = body.note.mode;
    let variables = variables_of(alloc, mode, h, body)?;
    let params = number(h.params.len())?;
    let locals = number(variables.len())?;
    let gives = type_written(alloc, &h.result)?;
    let next = in_head(h, first)?;
    let all = stmt(alloc, typed, variables.as_slice(), body, &gives, next)?;
    let result = result_limits(alloc, typed.get(), variables.as_slice(), &gives, &h.bounds)?;
    let interfaces = interfaces(alloc, typed.get(), mode, h)?;
    Ok(FunctionTree {
        end: Spot { at: h.pos, mode },
        params,
        locals,
        body: all,
        result,
        interfaces,
    })
}

fn add(
    alloc: Global,
    typed: &Text,
    item: &Item<Name, Note>,
    first: u32,
    all: &mut Seq<FunctionTree>,
) -> Result<(), AllocError>
    ensures { OnOk result (map function_of all.new
        ≡ map function_of all.old ++ functions_in typed.now first item.now) }
{
    match item {
        Item::Function(h, body) => {
            let made = function(alloc, typed, h.get(), body.get(), first)?;
            all.push(made)
        }
        Item::Directive(_) | Item::Tag(_, _) | Item::Struct(_, _, _) => Ok(()),
        Item::Static(_) | Item::Proto(_) => Ok(()),
    }
}

/// How many objects are declared.
fn declared(items: &[Item<Name, Note>]) -> Result<u32, AllocError>
    ensures { IfOk result (λ n. n ≡ count_declared items.now) }
{
    let mut n = 0;
    for item in items {
        if let Item::Static(_) = item {
            n = sum(n, 1)?;
        }
    }
    Ok(n)
}

/// The functions with a body, in the order of the text.
pub fn functions(alloc: Global, typed: &Text) -> Result<Seq<FunctionTree>, AllocError>
    ensures { IfOk result (λ fs. map function_of fs ≡ functions_elaborated typed.now) }
{
    let mut all = Seq::new(alloc);
    let items = typed.get().tree.items.as_slice();
    let mut next = declared(items)?;
    for item in items {
        add(alloc, typed, item, next, &mut all)?;
        next = in_item(item, next)?;
    }
    Ok(all)
}
