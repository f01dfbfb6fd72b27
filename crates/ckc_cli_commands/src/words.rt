//! The words of the command line.
ghost use Rattle.std.specs.Prelude.{◌≡◌, ◌≢◌, ◌≤◌, ℕ, List, MatchOption};
ghost use Rattle.ckc_cli_commands.specs.Words as w;
ghost use Rattle.ckc_cli_commands.specs.Words.{IsNumber, IsLimit, IsSeed, IsSize, NameAndLimit, SeedAndSize, bytes_of};
ghost use Rattle.ckc_cli_commands.specs.Commands.{Reads};
ghost use Rattle.ckc_cli_commands.specs.Commanded.{command_is};
ghost use Rattle.ckc_cli_commands.specs.code.Commanded.{spelling, HasArguments, IsTwo, IsOne};

/// What the words ask for, with the names of files and the most instructions that are executed, or steps that are run; or
/// with what begins the numbers of a sample, and how many functions it has.
#[derive(Clone, Copy)]
pub enum Command<'a> {
    Build(&'a str, &'a str),
    Assemble(&'a str, &'a str),
    Exec(&'a str, u64),
    Interp(&'a str, u64),
    Run(&'a str, u64),
    List(&'a str),
    Check(&'a str),
    Sample(u32, u32),
}

/// The first word of a command.
#[derive(Clone, Copy)]
enum Keyword {
    Build,
    Assemble,
    Exec,
    Interp,
    Run,
    List,
    Check,
    Sample,
}

/// The limit if the words say none.
pub const USUAL_LIMIT: u64 = 1_000_000_000;

/// The command that the words are.
pub fn command_of(words: &[String]) -> Option<Command<'_>>
    ensures { MatchOption result ((command : w.Command) → ¬ Reads (bytes_of words.now) command)
        (λ c. Reads (bytes_of words.now) (command_is c)) }
{
    match words.split_first() {
        None => None,
        Some((name, more)) => match keyword_of(name.as_str()) {
            None => None,
            Some(keyword) => command_with(keyword, more),
        },
    }
}

fn keyword_of(name: &str) -> Option<Keyword>
    ensures { MatchOption result ((k : Keyword)
        → name.now ≢ spelling k) (λ k. name.now ≡ spelling k) }
{
    match name {
        "build" => Some(Keyword::Build),
        "asm" => Some(Keyword::Assemble),
        "exec" => Some(Keyword::Exec),
        "interp" => Some(Keyword::Interp),
        "run" => Some(Keyword::Run),
        "list" => Some(Keyword::List),
        "check" => Some(Keyword::Check),
        "sample" => Some(Keyword::Sample),
        _ => None,
    }
}

/// The command with the other words.
fn command_with(keyword: Keyword, more: &[String]) -> Option<Command<'_>>
    ensures { MatchOption result ((command : w.Command)
        → ¬ HasArguments keyword (bytes_of more.now) command)
        (λ c. HasArguments keyword (bytes_of more.now) (command_is c)) }
{
    match keyword {
        Keyword::Build => match two_names(more) {
            None => None,
            Some((text, image)) => Some(Command::Build(text, image)),
        },
        Keyword::Assemble => match two_names(more) {
            None => None,
            Some((text, image)) => Some(Command::Assemble(text, image)),
        },
        Keyword::Exec => match name_and_limit(more) {
            None => None,
            Some((text, limit)) => Some(Command::Exec(text, limit)),
        },
        Keyword::Interp => match name_and_limit(more) {
            None => None,
            Some((text, limit)) => Some(Command::Interp(text, limit)),
        },
        Keyword::Run => match name_and_limit(more) {
            None => None,
            Some((image, limit)) => Some(Command::Run(image, limit)),
        },
        Keyword::List => match one_name(more) {
            None => None,
            Some(image) => Some(Command::List(image)),
        },
        Keyword::Check => match one_name(more) {
            None => None,
            Some(text) => Some(Command::Check(text)),
        },
        Keyword::Sample => match seed_and_size(more) {
            None => None,
            Some((seed, size)) => Some(Command::Sample(seed, size)),
        },
    }
}

fn one_name(words: &[String]) -> Option<&str>
    ensures { MatchOption result ((name : List ℕ)
        → ¬ IsOne (bytes_of words.now) name) (λ name. IsOne (bytes_of words.now) name.now) }
{
    match words {
        [name] => Some(name.as_str()),
        _ => None,
    }
}

fn two_names(words: &[String]) -> Option<(&str, &str)>
    ensures { MatchOption result ((name other : List ℕ) → ¬ IsTwo (bytes_of words.now) name other)
        (λ names. IsTwo (bytes_of words.now) names.0.now names.1.now) }
{
    match words {
        [name, other] => Some((name.as_str(), other.as_str())),
        _ => None,
    }
}

fn name_and_limit(words: &[String]) -> Option<(&str, u64)>
    ensures { MatchOption result ((name : List ℕ) (limit : ℕ)
        → ¬ NameAndLimit (bytes_of words.now) name limit)
        (λ found. NameAndLimit (bytes_of words.now) found.0.now found.1) }
{
    match words {
        [name] => Some((name.as_str(), USUAL_LIMIT)),
        [name, word] => match limit_of(word.as_str()) {
            None => None,
            Some(limit) => Some((name.as_str(), limit)),
        },
        _ => None,
    }
}

fn seed_and_size(words: &[String]) -> Option<(u32, u32)>
    ensures { MatchOption result ((seed size : ℕ)
        → ¬ SeedAndSize (bytes_of words.now) seed size)
        (λ found. SeedAndSize (bytes_of words.now) found.0 found.1) }
{
    match words {
        [first, second] => match seed_of(first.as_str()) {
            None => None,
            Some(seed) => match size_of(second.as_str()) {
                None => None,
                Some(size) => Some((seed, size)),
            },
        },
        _ => None,
    }
}

fn limit_of(word: &str) -> Option<u64>
    ensures { MatchOption result ((limit : ℕ)
        → ¬ IsLimit word.now limit) (λ limit. IsLimit word.now limit) }
{
    match number_of(word, 18) {
        None => None,
        Some(limit) => {
            if limit == 0 {
                return None;
            }
            Some(limit)
        }
    }
}

fn seed_of(word: &str) -> Option<u32>
    ensures { MatchOption result ((seed : ℕ)
        → ¬ IsSeed word.now seed) (λ seed. IsSeed word.now seed) }
{
    match number_of(word, 10) {
        None => None,
        Some(seed) => {
            if seed > 0xffff_ffff {
                return None;
            }
            Some(seed as u32)
        }
    }
}

fn size_of(word: &str) -> Option<u32>
    ensures { MatchOption result ((size : ℕ)
        → ¬ IsSize word.now size) (λ size. IsSize word.now size) }
{
    match number_of(word, 3) {
        None => None,
        Some(size) => {
            if size == 0 || size > 250 {
                return None;
            }
            Some(size as u32)
        }
    }
}

/// The number that a word of so many digits at most is.
fn number_of(word: &str, most: usize) -> Option<u64>
    requires { most ≤ 18 }
    ensures { MatchOption result ((n : ℕ)
        → ¬ IsNumber most word.now n) (λ n. IsNumber most word.now n) }
{
    if word.len() > most || word.as_bytes().first() == Some(&b'+') {
        return None;
    }
    match word.parse::<u64>() {
        Err(_) => None,
        Ok(n) => Some(n),
    }
}
