//! The codes with which names are refused.

/// E301: a name is not declared.
pub const UNDECLARED: u16 = 301;

/// E302: a name is declared twice in one scope, or no text may declare it.
pub const DECLARED_TWICE: u16 = 302;

/// E303: no function is `int main(void)`.
pub const NO_MAIN: u16 = 303;

/// E304: no function has the head of a prototype.
pub const UNDEFINED: u16 = 304;
