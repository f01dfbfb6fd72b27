//! Small numbers that other crates count on: the next count, the word of a byte, how many facts a chain has, how long an
//! image is.
#![tactic(auto)]

ghost use Rattle.std.specs.Prelude.{◌≡◌, ◌↔◌, ◌+◌, ◌-◌, ◌^◌, ◌<◌, ◌≤◌, IfSome, IsTrue, MatchOption};
ghost use Rattle.ckc_base_counts.specs.Counts as counts;

/// A count after one more. A count of failures that went through here rose.
#[inline(always)]
pub fn one_more(count: u64) -> u64
    ensures more { result ≡ counts.one_more count }
    ensures rose { counts.Rose count result }
{
    count.saturating_add(1)
}

/// The next byte of the input as a word, and at the end 2^32 - 1, which is -1.
#[inline(always)]
pub fn byte_or_end(next: Option<u8>) -> u32
    ensures word { MatchOption next (result ≡ 2 ^ 32 - 1) (λ byte. result ≡ byte) }
    ensures small { IfSome next (λ byte. byte < 2 ^ 8) }
{
    match next {
        Some(byte) => u32::from(byte),
        None => u32::MAX,
    }
}

/// How many facts a chain over so many variables has at most.
pub fn most_facts(vars: u32) -> u32
    requires { vars ≤ 1024 }
    ensures { result ≡ vars + 1 }
{
    vars + 1
}

/// Whether an image of so many bytes has its header, code and initial bytes, and nothing after them.
pub fn is_image_length(length: usize, code: usize, initial: usize) -> bool
    requires { (code < 2 ^ 32) × (initial < 2 ^ 32) }
    ensures { IsTrue result ↔ (length ≡ 20 + code + initial) }
{
    length == 20 + code + initial
}
