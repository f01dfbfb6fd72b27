//! The codes with which assembly is refused.

/// E801: a line has no form, or a second `.entry` stands.
pub const NO_FORM: u16 = 801;

/// E802: a label stands nowhere.
pub const UNKNOWN_LABEL: u16 = 802;

/// E803: a label stands a second time.
pub const SECOND_LABEL: u16 = 803;

/// E804: a number or a distance is out of range.
pub const OUT_OF_RANGE: u16 = 804;

/// E805: the whole is no image.
pub const NO_IMAGE: u16 = 805;
