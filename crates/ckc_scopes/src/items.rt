//! Items of a text.

ghost use Rattle.std.specs.Prelude.{◌≡◌};
ghost use Rattle.ckc_typed.specs.Walk.{spots_of_head, spots_of_item, spots_of_items};
ghost use Rattle.ckc_scopes.specs.code.Verdict.{verdict};

use crate::expressions::{bounds_fit, place_fits};
use crate::raw::first_star;
use crate::statements::{decl_fits, decls_fit, params_fit, stmt_fits};
use ckc_base::{Mode, Refusal};
use ckc_syntax::{Head, Item, Name};
use ckc_typed::Note;
use ckc_typed::modes::{head_mode, pragma_after};

/// Judges the items of a text in order.
pub fn items_fit(items: &[Item<Name, Note>]) -> Result<(), Refusal>
    ensures { result ≡ verdict items.now (spots_of_items Mode.Unchecked items.now) }
{
    let mut pragma = Mode::Unchecked;
    for item in items {
        item_fits(item, pragma, items)?;
        pragma = pragma_after(pragma, item);
    }
    Ok(())
}

fn item_fits(
    item: &Item<Name, Note>,
    pragma: Mode,
    items: &[Item<Name, Note>],
) -> Result<(), Refusal>
    ensures { result ≡ verdict items.now (spots_of_item pragma item.now) }
{
    match item {
        Item::Directive(_) | Item::Tag(_, _) => Ok(()),
        Item::Struct(_, members, _) => decls_fit(members.as_slice(), pragma, items),
        Item::Static(decl) => decl_fits(decl.get(), pragma, items),
        Item::Proto(head) => head_fits(head.get(), pragma, items),
        Item::Function(head, body) => {
            head_fits(head.get(), pragma, items)?;
            stmt_fits(body.get(), items)
        }
    }
}

/// Judges the head of a function: the type of its result, its parameters, its limits.
fn head_fits(
    head: &Head<Name, Note>,
    pragma: Mode,
    items: &[Item<Name, Note>],
) -> Result<(), Refusal>
    ensures { result ≡ verdict items.now (spots_of_head pragma head.now) }
{
    let mode = head_mode(pragma, head);
    place_fits(first_star(&head.result), mode)?;
    params_fit(head.params.as_slice(), mode, items)?;
    bounds_fit(&head.bounds, items)
}
