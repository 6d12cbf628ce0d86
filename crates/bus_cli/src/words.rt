//! The words of the program.
ghost use Rattle.std.specs.Prelude.{◌≡◌, ◌≤◌, map, string_bytes};
ghost use Rattle.bus_cli.specs.Words.{number_of, making, running, one_word, two_words, three_words, word_of};
ghost use Rattle.bus_cli.specs.Ends.{MakesFew};

use scenario::COMMAND_LIMIT;
use text_words::number;

/// What is written of a run.
#[derive(Clone, Copy, PartialEq, Eq, Debug)]
pub enum Extent {
    /// The report.
    Whole,
    /// The short report.
    Short,
    /// The transcript of its rows.
    Transcript,
}

/// What the words ask of the program.
#[derive(Clone, Copy, PartialEq, Eq, Debug)]
pub enum Word {
    /// `run`, `run --short` or `run --transcript`: run the scenario of the input.
    Run(Extent),
    /// `judge`: judge the trace of the input.
    Judge,
    /// `make SEED N`: write the scenario of a number, with N commands.
    Make { seed: u64, n: u32 },
    /// `vcd`: write the value change dump of the trace of the input.
    Vcd,
    /// `unvcd`: write the trace of the value change dump of the input.
    Unvcd,
    /// `transcript`: write the transcript of the trace of the input.
    Transcript,
}

// The decimal number that a word is, without zeros in front and below 2^64.
fn number_of(word: &[u8]) -> Option<u64>
    ensures { result ≡ number_of word.now }
{
    match number(word) {
        Some((value, [])) => value,
        _ => None,
    }
}

// `make` with these numbers.
fn making(seed: Option<u64>, n: Option<u64>) -> Option<Word>
    ensures exact { result ≡ making seed n }
    ensures few { MakesFew result }
{
    match (seed, n) {
        (Some(seed), Some(n)) if 0 < n && n <= COMMAND_LIMIT as u64 => Some(Word::Make {
            seed,
            n: n as u32,
        }),
        _ => None,
    }
}

fn one_word(word: &str) -> Option<Word>
    ensures exact { result ≡ one_word word.now }
    ensures few { MakesFew result }
{
    match word {
        "run" => Some(Word::Run(Extent::Whole)),
        "judge" => Some(Word::Judge),
        "vcd" => Some(Word::Vcd),
        "unvcd" => Some(Word::Unvcd),
        "transcript" => Some(Word::Transcript),
        _ => None,
    }
}

// `run` with this option.
fn running(option: &str) -> Option<Word>
    ensures exact { result ≡ running option.now }
    ensures few { MakesFew result }
{
    match option {
        "--short" => Some(Word::Run(Extent::Short)),
        "--transcript" => Some(Word::Run(Extent::Transcript)),
        _ => None,
    }
}

fn two_words(word: &str, option: &str) -> Option<Word>
    ensures exact { result ≡ two_words word.now option.now }
    ensures few { MakesFew result }
{
    if word == "run" { running(option) } else { None }
}

fn three_words(word: &str, seed: &str, n: &str) -> Option<Word>
    ensures exact { result ≡ three_words word.now seed.now n.now }
    ensures few { MakesFew result }
{
    if word == "make" {
        making(number_of(seed.as_bytes()), number_of(n.as_bytes()))
    } else {
        None
    }
}

/// What the words ask, or `None` where they are none of the program's.
pub fn word_of(words: &[String]) -> Option<Word>
    ensures exact { result ≡ word_of (map string_bytes words.now) }
    ensures few { MakesFew result }
{
    match words {
        [word] => one_word(word.as_str()),
        [word, option] => two_words(word.as_str(), option.as_str()),
        [word, seed, n] => three_words(word.as_str(), seed.as_str(), n.as_str()),
        _ => None,
    }
}
