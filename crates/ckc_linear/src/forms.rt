/// What the address of a form starts from: a local pointer, a static array, or the value of an expression, each by
/// its number.
#[derive(Clone, Copy)]
pub enum Base {
    Local(u32),
    Array(u32),
    Value(u32),
}

/// A base, a variable and a number. Without a base it is the integer `var + add`; with one it is the address of the
/// element with that index, from the base. Variable 0 is the number zero.
#[derive(Clone, Copy)]
pub struct Form {
    pub base: Option<Base>,
    pub var: u32,
    pub add: i64,
}
