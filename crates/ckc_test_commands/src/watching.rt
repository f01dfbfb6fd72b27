//! Runs of images on a machine that watches its stores.
use ckc_build::program;
use ckc_cli::{FaultKind, Status};
use ckc_image::View;
use ckc_source::Program;
use ckc_test_trials::Page;
use ckc_test_watch::{End, Places, Stores, Watch, is_wholly_checked};
use std::mem::forget;

/// How many instructions a run may take.
const LIMIT: u32 = 3_000_000;

/// Runs an image with an input, and adds what it puts out. Its stores may go into the blocks of the text, which has to be
/// wholly checked. Tells how the run ended and where its stores went.
pub fn run_watched(
    text: &[u8],
    image: &[u8],
    input: &[u8],
    out: &mut Vec<u8>,
    page: &mut Page,
) -> Option<(Status, Stores)> {
    let places = places_of(text, page)?;
    let view = match View::read(image) {
        Ok(view) => view,
        Err(_) => {
            page.refuse("no image");
            return None;
        }
    };
    match Watch::load(page.alloc(), view, input, places) {
        Ok(mut machine) => {
            let end = machine.run(LIMIT);
            page.append(out, machine.out());
            Some((status_of_end(end), machine.stores()))
        }
        Err(_) => {
            page.lacks_memory();
            None
        }
    }
}

/// The blocks of a wholly checked text.
fn places_of(text: &[u8], page: &mut Page) -> Option<Places> {
    match program(page.alloc(), text) {
        Ok(p) => {
            let places = blocks_of(&p, page);
            forget(p);
            places
        }
        Err(_) => {
            page.refuse("no program");
            None
        }
    }
}

fn blocks_of(p: &Program, page: &mut Page) -> Option<Places> {
    if !is_wholly_checked(p) {
        page.refuse("not wholly checked");
        return None;
    }
    match Places::new(page.alloc(), p) {
        Ok(places) => Some(places),
        Err(_) => {
            page.lacks_memory();
            None
        }
    }
}

/// The status of `ccc` for the end of a run. Of a fault only the address counts.
fn status_of_end(end: End) -> Status {
    match end {
        End::Ended(value) => Status::Ended(value),
        End::Stopped(check, at) => Status::Stopped(check, at),
        End::Fault(pc) => Status::MachineFault(FaultKind::Store, pc),
        End::Memory => Status::Memory,
        End::Going => Status::Going,
    }
}

/// Writes where stores went: how many to the heap word and into blocks; or the address of the first one that went outside
/// all that a store may go to. Where there was none at all, it says so.
pub fn put_stores(stores: &Stores, page: &mut Page) {
    if let Some(at) = stores.outside {
        page.put("outside ");
        page.put_hex(at);
    } else if stores.heap_word == 0 && stores.blocks == 0 && stores.frames == 0 {
        page.put("none");
    } else {
        page.put_number(i64::from(stores.heap_word));
        page.put(" ");
        page.put_number(i64::from(stores.blocks));
    }
}
