//! The codes of the refusals of the types phase.

/// E401: operands, a type, a member or the length of an array do not fit.
pub const BAD_OPERANDS: u16 = 401;
/// E402: a conversion is not allowed.
pub const BAD_CONVERSION: u16 = 402;
/// E403: what cannot be assigned.
pub const BAD_TARGET: u16 = 403;
/// E404: the arguments of a call, or what is called.
pub const BAD_CALL: u16 = 404;
/// E405: the address of a local or of a value.
pub const NO_ADDRESS: u16 = 405;
/// E406: `break` or `continue` outside a loop.
pub const NO_LOOP: u16 = 406;
/// E407: a checked pointer that is a local has no initialiser.
pub const NO_INITIALISER: u16 = 407;
/// E206: the static objects end too late.
pub const LATE_STATICS: u16 = 206;
