//! The words of a command.
ghost use Rattle.std.specs.Prelude.{◌≡◌, ◌≢◌, ◌==◌, ◌<◌, ◌≤◌, ℕ, List, [], ◌∷◌, length, map, string_bytes};
ghost use Rattle.std.specs.Prelude.{MatchOption, slice_index};
ghost use Rattle.agent_run.specs.Command.{IsCommand, IsGen, IsNoCommand, IsNumber, IsPipe, IsPipeOf, NamesNoConfig};

use agent_config::usual_journal;
use fixed_num::read_uint;

/// The greatest batch size and buffer limit.
const MOST: u32 = 10_000;

/// The most lines that an input is generated with.
const MOST_LINES: u32 = 1_000_000;

/// One line protocol input and one line protocol output.
#[derive(Clone, Copy, Debug)]
pub struct Pipe<'a> {
    /// The place that is read.
    pub input: &'a str,
    /// The place that is written.
    pub output: &'a str,
    /// How many metrics a batch has at most.
    pub batch: u32,
    /// How many metrics wait at most.
    pub limit: u32,
}

/// A configuration, over inputs that are generated.
#[derive(Clone, Copy, Debug)]
pub struct Gen<'a> {
    /// How many lines each input of line protocol has.
    pub lines: u32,
    /// The place of the configuration.
    pub place: &'a str,
}

/// A command.
#[derive(Clone, Copy, Debug)]
pub enum Command<'a> {
    /// Runs one input and one output.
    Pipe(Pipe<'a>),
    /// Checks the configuration at a place.
    Check(&'a str),
    /// Runs the configuration at a place.
    Run(&'a str),
    /// Runs a configuration over inputs that are generated.
    Gen(Gen<'a>),
}

fn begins_with_plus(bytes: &[u8]) -> bool
    ensures { result ≡ (slice_index bytes.now 0 == 43) }
{
    match bytes {
        [b'+', ..] => true,
        _ => false,
    }
}

/// The number that a word of decimal digits spells, where it is at most so great.
fn number_of(word: &str, most: u32) -> Option<u32>
    ensures { MatchOption result ((n : ℕ) → IsNumber word.now n → most < n) (λ n. IsNumber word.now n
        × (n ≤ most)) }
{
    let bytes = word.as_bytes();
    if begins_with_plus(bytes) {
        return None;
    }
    match read_uint(bytes) {
        Ok(n) => {
            if n <= u64::from(most) {
                Some(n as u32)
            } else {
                None
            }
        }
        Err(_) => None,
    }
}

/// Five words.
#[derive(Clone, Copy)]
struct Words<'a> {
    command: &'a str,
    input: &'a str,
    output: &'a str,
    batch: &'a str,
    limit: &'a str,
}

/// The words, where they are five.
fn five_of(words: &[String]) -> Option<Words<'_>>
    ensures { MatchOption result (length words.now ≢ 5)
        (λ w. map string_bytes words.now ≡ w.command.now ∷ w.input.now ∷ w.output.now ∷ w.batch.now ∷
        w.limit.now ∷ []) }
{
    let [command, input, output, batch, limit] = words else {
        return None;
    };
    Some(Words {
        command: command.as_str(),
        input: input.as_str(),
        output: output.as_str(),
        batch: batch.as_str(),
        limit: limit.as_str(),
    })
}

/// The pipe that five words are.
fn pipe_of<'a>(words: &Words<'a>) -> Option<Pipe<'a>>
    ensures { MatchOption result
        ((batch limit : ℕ)
        → IsPipeOf words.now.command.now words.now.output.now words.now.batch.now words.now.limit.now
        batch limit → ⊥)
        (λ pipe. (pipe.input.now ≡ words.now.input.now) × (pipe.output.now ≡ words.now.output.now)
        × IsPipeOf words.now.command.now words.now.output.now words.now.batch.now words.now.limit.now
        pipe.batch pipe.limit) }
{
    if words.command != "pipe" || words.output == usual_journal() {
        return None;
    }
    let batch = number_of(words.batch, MOST)?;
    let limit = number_of(words.limit, MOST)?;
    if batch == 0 || limit < batch {
        return None;
    }
    Some(Pipe {
        input: words.input,
        output: words.output,
        batch,
        limit,
    })
}

/// The pipe that the words are.
fn pipe_in(words: &[String]) -> Option<Pipe<'_>>
    ensures { MatchOption result
        ((input output : List ℕ) (batch limit : ℕ) → IsPipe words.now input output batch limit → ⊥)
        (λ pipe. IsPipe words.now pipe.input.now pipe.output.now pipe.batch pipe.limit) }
{
    let five = five_of(words)?;
    pipe_of(&five)
}

/// The words, where they are two.
fn two_of(words: &[String]) -> Option<(&str, &str)>
    ensures { MatchOption result (length words.now ≢ 2)
        (λ w. map string_bytes words.now ≡ w.0.now ∷ w.1.now ∷ []) }
{
    let [command, place] = words else {
        return None;
    };
    Some((command.as_str(), place.as_str()))
}

/// The words, where they are three.
fn three_of(words: &[String]) -> Option<(&str, &str, &str)>
    ensures { MatchOption result (length words.now ≢ 3)
        (λ w. map string_bytes words.now ≡ w.0.now ∷ w.1.now ∷ w.2.now ∷ []) }
{
    let [command, lines, place] = words else {
        return None;
    };
    Some((command.as_str(), lines.as_str(), place.as_str()))
}

/// The run over generated inputs that the words are.
fn gen_in(words: &[String]) -> Option<Gen<'_>>
    ensures { MatchOption result
        ((lines : ℕ) (place : List ℕ) → IsGen words.now lines place → ⊥)
        (λ run. IsGen words.now run.lines run.place.now) }
{
    let (command, lines, place) = three_of(words)?;
    if command != "gen" {
        return None;
    }
    let lines = number_of(lines, MOST_LINES)?;
    if lines == 0 {
        return None;
    }
    Some(Gen { lines, place })
}

/// The command on a configuration that the words are.
fn config_command(words: &[String]) -> Option<Command<'_>>
    ensures { MatchOption result (NamesNoConfig words.now) (IsCommand words.now) }
{
    let Some((command, place)) = two_of(words) else {
        return Some(Command::Gen(gen_in(words)?));
    };
    match command {
        "check" => Some(Command::Check(place)),
        "run" => Some(Command::Run(place)),
        _ => None,
    }
}

/// The command that the words are; None exactly where they are none.
pub fn read_command(words: &[String]) -> Option<Command<'_>>
    ensures { MatchOption result (IsNoCommand words.now) (IsCommand words.now) }
{
    match config_command(words) {
        Some(command) => Some(command),
        None => Some(Command::Pipe(pipe_in(words)?)),
    }
}
