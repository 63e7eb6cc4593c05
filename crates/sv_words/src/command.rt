// The words of the command line.
ghost use Rattle.std.specs.Prelude.{◌≡◌, ℕ, IsTrue, IfOk, IfSome, IfNone};
ghost use Rattle.std.specs.List.{list_all};
ghost use Rattle.sv_words.specs.Texts.{bytes_of};
ghost use Rattle.sv_words.specs.Words as spec;
ghost use Rattle.sv_words.specs.Words.{is_name_byte, IsRoot, IsEvents, IsOfRoot, IsCount, IsGen, IsCommand, IsNoRun, IsNoneOfRoot, IsNoGen, IsNoTest, IsNoForm};

use std::alloc::Global;
use sv_base::NoMemory;
use sv_play::Flags;

fn are_name_bytes(bytes: &[u8]) -> bool
    ensures { result ≡ list_all is_name_byte bytes.now }
{
    bytes.iter().all(|byte| byte.is_ascii_alphanumeric() || *byte == b'_' || *byte == b'-')
}

// Whether it is a name of ASCII letters, digits, `_` and `-`, then `.svelte`.
fn is_root(word: &str) -> bool
    ensures yes { IsTrue result → IsRoot word.now }
    ensures no { IsRoot word.now → IsTrue result }
{
    match word.as_bytes().strip_suffix(b".svelte") {
        Some(name) => !name.is_empty() && are_name_bytes(name),
        None => false,
    }
}

// Whether it is not empty and does not begin with two dashes.
fn is_events(word: &str) -> bool
    ensures yes { IsTrue result → IsEvents word.now }
    ensures no { IsEvents word.now → IsTrue result }
{
    match word.as_bytes() {
        [] => false,
        [b'-', b'-', ..] => false,
        _ => true,
    }
}

/// What the words ask for.
#[derive(Clone, Copy)]
pub enum Command<'a> {
    /// `run ROOT EVENTS`, with flags behind it.
    Run {
        root: &'a str,
        events: &'a str,
        flags: Flags,
    },
    /// `check ROOT`.
    Check {
        root: &'a str,
    },
    /// `print ROOT`.
    Print {
        root: &'a str,
    },
    /// `render ROOT`.
    Render {
        root: &'a str,
    },
    /// `gen N`.
    Gen {
        count: u32,
    },
    /// `test ROOT EVENTS`.
    Test {
        root: &'a str,
        events: &'a str,
    },
}

/// The most that `gen N` may ask for.
pub const GEN_LIMIT: u32 = 1_000;

/// The command of the words, or `None` exactly where they are no form.
pub fn command_of(alloc: Global, words: &[String]) -> Result<Option<Command<'_>>, NoMemory>
    ensures some { IfOk result (λ command. IfSome command (IsCommand (bytes_of words.now))) }
    ensures none { IfOk result (λ command. IfNone command (IsNoForm (bytes_of words.now))) }
{
    if let Some(command) = run_words(words) {
        return Ok(Some(command));
    }
    if let Some(root) = root_words("check", words) {
        return Ok(Some(Command::Check { root }));
    }
    if let Some(root) = root_words("print", words) {
        return Ok(Some(Command::Print { root }));
    }
    if let Some(root) = root_words("render", words) {
        return Ok(Some(Command::Render { root }));
    }
    if let Some(command) = test_words(words) {
        return Ok(Some(command));
    }
    match gen_words(alloc, words)? {
        Some(count) => Ok(Some(Command::Gen { count })),
        None => Ok(None),
    }
}

// The command of the words, where they are `run ROOT EVENTS` with flags behind it.
fn run_words(words: &[String]) -> Option<Command<'_>>
    ensures some { IfSome result (IsCommand (bytes_of words.now)) }
    ensures none { IfNone result (IsNoRun (bytes_of words.now)) }
{
    match words {
        [command, root, events, marks @ ..]
            if command.as_str() == "run" && is_root(root) && is_events(events) => {
            Some(Command::Run {
                root: root.as_str(),
                events: events.as_str(),
                flags: flags_of(marks)?,
            })
        }
        _ => None,
    }
}

// The flags that words ask for, each once at most.
fn flags_of(words: &[String]) -> Option<Flags>
    ensures { result ≡ spec.flags_of (bytes_of words.now) }
{
    let mut flags = Flags {
        logs: false,
        serials: false,
        tally: false,
    };
    for word in words {
        flags = with_flag(flags, word)?;
    }
    Some(flags)
}

// Flags with one more, which a word asks for.
fn with_flag(flags: Flags, word: &str) -> Option<Flags>
    ensures { result ≡ spec.with_flag flags word.now }
{
    if word == "--log" {
        return set_once(
            flags.logs,
            Flags {
                logs: true,
                ..flags
            },
        );
    }
    if word == "--serials" {
        return set_once(
            flags.serials,
            Flags {
                serials: true,
                ..flags
            },
        );
    }
    if word == "--tally" {
        return set_once(
            flags.tally,
            Flags {
                tally: true,
                ..flags
            },
        );
    }
    None
}

fn set_once(set: bool, flags: Flags) -> Option<Flags>
    ensures { result ≡ spec.set_once set flags }
{
    if set { None } else { Some(flags) }
}

// The name of the root file, where the words are a command with such a name.
fn root_words<'a>(command: &str, words: &'a [String]) -> Option<&'a str>
    ensures some { IfSome result (λ root. IsOfRoot command.now (bytes_of words.now) root.now) }
    ensures none { IfNone result (IsNoneOfRoot command.now (bytes_of words.now)) }
{
    let [first, root] = words else {
        return None;
    };
    if first.as_str() == command && is_root(root) {
        Some(root.as_str())
    } else {
        None
    }
}

// The command of the words, where they are `test ROOT EVENTS`.
fn test_words(words: &[String]) -> Option<Command<'_>>
    ensures some { IfSome result (IsCommand (bytes_of words.now)) }
    ensures none { IfNone result (IsNoTest (bytes_of words.now)) }
{
    match words {
        [command, root, events]
            if command.as_str() == "test" && is_root(root) && is_events(events) => {
            Some(Command::Test {
                root: root.as_str(),
                events: events.as_str(),
            })
        }
        _ => None,
    }
}

// The number, where the words are `gen N`.
fn gen_words(alloc: Global, words: &[String]) -> Result<Option<u32>, NoMemory>
    ensures some { IfOk result (λ count. IfSome count (IsGen (bytes_of words.now))) }
    ensures none { IfOk result (λ count. IfNone count (IsNoGen (bytes_of words.now))) }
{
    let [command, count] = words else {
        return Ok(None);
    };
    if command.as_str() == "gen" {
        count_of(alloc, count)
    } else {
        Ok(None)
    }
}

// The number that a word is, where it is one up to `GEN_LIMIT` that is written without leading zeros.
fn count_of(alloc: Global, word: &str) -> Result<Option<u32>, NoMemory>
    ensures some { IfOk result (λ count. IfSome count (IsCount word.now)) }
    ensures none { IfOk result (λ count. IfNone count ((n : ℕ) → IsCount word.now n → ⊥)) }
{
    let Ok(count) = word.parse::<u32>() else {
        return Ok(None);
    };
    if count > GEN_LIMIT {
        return Ok(None);
    }
    let spelled = count.to_string(alloc)?;
    if spelled.as_str() == word {
        Ok(Some(count))
    } else {
        Ok(None)
    }
}
