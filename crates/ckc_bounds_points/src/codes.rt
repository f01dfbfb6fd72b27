//! The codes of the errors of the bounds phase.

/// E601: an access or a tested cast with unknown bounds.
pub const UNKNOWN_BOUNDS: u16 = 601;

/// E602: the bounds of a new value do not contain those that it must have.
pub const NOT_CONTAINED: u16 = 602;

/// E603: declared bounds, or the amount of a bounds cast, have no such form.
pub const BAD_LIMITS: u16 = 603;

/// E604: a pointer that is not assigned is no longer contained in its bounds, or what the bounds of the function's result
/// name is assigned.
pub const LOST_BOUNDS: u16 = 604;

/// E605: a member that takes part in bounds is assigned alone.
pub const ASSIGNED_ALONE: u16 = 605;

/// E606: the address of a member that takes part in bounds or has bounds, or of an object with bounds.
pub const BOUNDS_ADDRESS: u16 = 606;

/// E607: what is no bundle.
pub const BAD_BUNDLE: u16 = 607;
