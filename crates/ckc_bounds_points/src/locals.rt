//! The locals of a function.

ghost use Rattle.std.specs.Prelude.{◌≡◌};
ghost use Rattle.std.specs.Option.{option_copied};
ghost use Rattle.ckc_bounds_points.specs.Frames.{local_at, variable};

use crate::frame::{Frame, Local};
use ckc_linear::Form;
use ckc_syntax::Name;
use ckc_typed::types::is_integer;

/// The local with a number.
pub fn local_at(frame: &Frame, k: u32) -> Option<&Local>
    ensures { option_copied result ≡ local_at frame.now k }
{
    frame.locals.get(k as usize)
}

/// The form of an integer local that is named.
pub fn variable(frame: &Frame, name: Name) -> Option<Form>
    ensures { result ≡ variable frame.now name }
{
    match name {
        Name::Local(k) => match local_at(frame, k) {
            Some(local) => {
                if is_integer(&local.ctype) {
                    Some(Form {
                        base: None,
                        var: k + 1,
                        add: 0,
                    })
                } else {
                    None
                }
            }
            None => None,
        },
        _ => None,
    }
}
