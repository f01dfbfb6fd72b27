use ckc_syntax::{Name, Spelling};
use ckc_test_trials::Page;

/// What stands for a name in a tree.
pub trait Written {
    /// Writes it.
    fn put(&self, page: &mut Page);
}

impl<'a> Written for Spelling<'a> {
    fn put(&self, page: &mut Page) {
        page.put(self.as_str());
    }
}

impl Written for Name {
    fn put(&self, page: &mut Page) {
        page.put_debug(self);
    }
}
