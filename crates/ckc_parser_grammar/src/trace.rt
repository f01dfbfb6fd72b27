/// The byte for a token in a trace. Every other byte is the number of a production.
pub const TOKEN: u8 = 255;
