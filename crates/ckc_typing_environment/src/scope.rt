//! What the whole text sees, with what a look-up by number needs.

ghost use Rattle.std.specs.Prelude.{◌≡◌, find};
ghost use Rattle.std.specs.Option.{option_copied};
ghost use Rattle.ckc_typed.specs.Environment.{same_name, object_named, signature_named};
ghost use Rattle.ckc_typing_environment.specs.Numbered.{is_place, place_of_object, place_of_function, objects_numbered, functions_numbered};
ghost use Rattle.ckc_typing_environment.specs.code.Numbered.{at_place};

use ckc_syntax::Name;
use ckc_typed::lookups::same_name;
use ckc_typed::{Globals, Object, Signature};
use ckc_types::Structs;
use std::marker::Model;

/// What the whole text sees (ISO C11, 6.2.1, file scope), and whether each object and each function is at the place of
/// its number, so that it is found there. A contract sees what the text sees alone.
#[derive(Drop)]
pub struct FileScope<'a> {
    globals: &'a Globals,
    objects_in_place: bool,
    functions_in_place: bool,
}

impl<'a> Model for FileScope<'a> {
    ghost use Rattle.std.specs.Prelude.{◌≡◌};
    ghost use Rattle.ckc_typed.specs.declared.environment.Globals.{Globals};

    ghost Value = { Globals };

    ghost use Rattle.ckc_typed.specs.contracts.environment.Globals as environment;

    ghost coded = { environment.the_row.coded };

    ghost use Rattle.ckc_typing_environment.specs.Numbered.{objects_numbered, functions_numbered};

    ghost view = { λ s. s.globals.now };

    ghost invariant = { λ s.
        (s.objects_in_place ≡ objects_numbered 0 s.globals.now.objects)
        × (s.functions_in_place ≡ functions_numbered 0 s.globals.now.functions) };
}

fn place_of_object(n: Name) -> Option<usize>
    ensures { result ≡ place_of_object n }
{
    match n {
        Name::Static(k) => Some(k as usize),
        Name::Local(_) | Name::Function(_) | Name::Tag(_) | Name::Member(_) => None,
        Name::Getchar | Name::Putchar => None,
    }
}

fn place_of_function(n: Name) -> Option<usize>
    ensures { result ≡ place_of_function n }
{
    match n {
        Name::Getchar => Some(0),
        Name::Putchar => Some(1),
        Name::Function(k) => Some(k as usize + 2),
        Name::Local(_) | Name::Static(_) | Name::Tag(_) | Name::Member(_) => None,
    }
}

fn is_place(place: Option<usize>, at: usize) -> bool
    ensures { result ≡ is_place place at }
{
    match place {
        Some(k) => k == at,
        None => false,
    }
}

/// What is at a place, if there is one.
fn at_place<T>(items: &[T], place: Option<usize>) -> Option<&T>
    ensures { option_copied result ≡ at_place place items.now }
{
    match place {
        Some(k) => items.get(k),
        None => None,
    }
}

fn objects_numbered(objects: &[Object]) -> bool
    ensures { result ≡ objects_numbered 0 objects.now }
{
    for (at, o) in objects.iter().enumerate() {
        if !is_place(place_of_object(o.name), at) {
            return false;
        }
    }
    true
}

fn functions_numbered(functions: &[Signature]) -> bool
    ensures { result ≡ functions_numbered 0 functions.now }
{
    for (at, f) in functions.iter().enumerate() {
        if !is_place(place_of_function(f.name), at) {
            return false;
        }
    }
    true
}

fn object_by_walk(objects: &[Object], n: Name) -> Option<&Object>
    ensures { option_copied result ≡ find (λ o. same_name o.name n) objects.now }
{
    objects.iter().find(|o| same_name(o.name, n))
}

fn signature_by_walk(functions: &[Signature], n: Name) -> Option<&Signature>
    ensures { option_copied result ≡ find (λ f. same_name f.name n) functions.now }
{
    functions.iter().find(|f| same_name(f.name, n))
}

impl<'a> FileScope<'a> {
    /// The scope of a text.
    pub fn new(globals: &'a Globals) -> FileScope<'a>
        ensures { result ≡ globals.now }
    {
        FileScope {
            globals,
            objects_in_place: objects_numbered(globals.objects.as_slice()),
            functions_in_place: functions_numbered(globals.functions.as_slice()),
        }
    }

    /// The structures by the numbers of their tags.
    pub fn structs(&self) -> &'a Structs
        ensures { result.now ≡ self.now.structs }
    {
        &self.globals.structs
    }

    /// The object of file scope with a name, if there is one.
    #[tactic(auto, using(crate::proofs::Numbered::object_found))]
    pub fn object_named(&self, n: Name) -> Option<&'a Object>
        ensures { option_copied result ≡ object_named self.now n }
    {
        let objects = self.globals.objects.as_slice();
        if self.objects_in_place {
            at_place(objects, place_of_object(n))
        } else {
            object_by_walk(objects, n)
        }
    }

    /// The type of the function with a name, if there is one.
    #[tactic(auto, using(crate::proofs::Numbered::signature_found))]
    pub fn signature_named(&self, n: Name) -> Option<&'a Signature>
        ensures { option_copied result ≡ signature_named self.now n }
    {
        let functions = self.globals.functions.as_slice();
        if self.functions_in_place {
            at_place(functions, place_of_function(n))
        } else {
            signature_by_walk(functions, n)
        }
    }
}
