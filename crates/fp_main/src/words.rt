ghost use Rattle.std.specs.Prelude.{◌≡◌, ◌∷◌, ◌<◌, ◌≤◌, ℕ, codes, decimal, map, MatchOption};
ghost use Rattle.std.specs.Str.{bytes_eq};
ghost use Rattle.std.specs.String.{string_bytes};
ghost use Rattle.fp_main.specs.Words.{ReadsWords, most_instances, word_of};
ghost use Rattle.fp_main.specs.declared.words.TopologyText.{TopologyText as Asked};

use fp_scenario_run::RunText;
use itoa::Buffer;

/// How many instances the load has at most.
const MOST_INSTANCES: u32 = 60;

/// A text of a topology.
#[derive(Clone, Copy)]
pub enum TopologyText {
    /// Its connections, with the numbers of their ports.
    Connections,
    /// Its dictionary.
    Dictionary,
}

/// A run over the topology of a name, by the scenario in the file of that one.
#[derive(Clone, Copy)]
pub struct AskedRun<'a> {
    pub topology: &'a str,
    pub scenario: &'a str,
    pub told: RunText,
}

/// What is asked for of a model.
#[derive(Clone, Copy)]
pub enum Wanted<'a> {
    /// Its listing.
    Listing,
    /// A text of the topology of this name.
    OfTopology { text: TopologyText, name: &'a str },
    /// A run, of which something is told.
    Run(AskedRun<'a>),
}

/// What the words ask for.
#[derive(Clone, Copy)]
pub enum Command<'a> {
    /// Something of the model that the source in the files of these names defines.
    OfFiles(Wanted<'a>, &'a [String]),
    /// A run of the load with so many instances.
    Make(u32),
}

/// The command that the words spell, or the number of the first word that doesn't fit or is missing, counted from 1.
pub fn read_words(words: &[String]) -> Result<Command<'_>, u64>
    ensures { ReadsWords (map string_bytes words.now) result }
{
    match words.split_first() {
        None => Err(1),
        Some((command, rest)) => {
            let word = command.as_str();
            if word == "check" {
                read_check(rest)
            } else if word == "run" {
                read_run(rest)
            } else if word == "make" {
                read_make(rest)
            } else {
                match text_of(word) {
                    Some(text) => read_topology(text, rest),
                    None => Err(1),
                }
            }
        }
    }
}

/// The text of a topology for which this word asks.
fn text_of(word: &str) -> Option<TopologyText>
    ensures { MatchOption result ((text : Asked) → word.now ≡ word_of text → ⊥) (λ text. word.now ≡ word_of text) }
{
    if word == "ports" {
        Some(TopologyText::Connections)
    } else if word == "dict" {
        Some(TopologyText::Dictionary)
    } else {
        None
    }
}

/// What follows the word `check`.
fn read_check(files: &[String]) -> Result<Command<'_>, u64>
    ensures { ReadsWords (codes "check" ∷ map string_bytes files.now) result }
{
    if files.is_empty() {
        Err(2)
    } else {
        let wanted = Wanted::Listing;
        Ok(Command::OfFiles(wanted, files))
    }
}

/// What follows the word that asks for a text of a topology.
fn read_topology(text: TopologyText, rest: &[String]) -> Result<Command<'_>, u64>
    ensures { ReadsWords (word_of text ∷ map string_bytes rest.now) result }
{
    match rest.split_first() {
        None => Err(2),
        Some((topology, files)) => {
            if files.is_empty() {
                Err(3)
            } else {
                let name = topology.as_str();
                let wanted = Wanted::OfTopology { text, name };
                Ok(Command::OfFiles(wanted, files))
            }
        }
    }
}

/// What follows the word `run`.
fn read_run(rest: &[String]) -> Result<Command<'_>, u64>
    ensures { ReadsWords (codes "run" ∷ map string_bytes rest.now) result }
{
    match rest.split_first() {
        None => Err(2),
        Some((topology, rest)) => read_run_over(topology.as_str(), rest),
    }
}

/// What follows the word `run` and the name of a topology.
fn read_run_over<'a>(name: &'a str, rest: &'a [String]) -> Result<Command<'a>, u64>
    ensures { ReadsWords (codes "run" ∷ name.now ∷ map string_bytes rest.now) result }
{
    match rest.split_first() {
        None => Err(3),
        Some((scenario, files)) => {
            if files.is_empty() {
                Err(4)
            } else {
                let wanted = Wanted::Run(AskedRun {
                    topology: name,
                    scenario: scenario.as_str(),
                    told: RunText::Log,
                });
                Ok(Command::OfFiles(wanted, files))
            }
        }
    }
}

/// What follows the word `make`.
fn read_make(rest: &[String]) -> Result<Command<'_>, u64>
    ensures { ReadsWords (codes "make" ∷ map string_bytes rest.now) result }
{
    match rest.split_first() {
        None => Err(2),
        Some((count, more)) => match instances_of(count.as_str()) {
            None => Err(2),
            Some(instances) => {
                if more.is_empty() {
                    Ok(Command::Make(instances))
                } else {
                    Err(3)
                }
            }
        },
    }
}

/// The number of instances that a word spells.
fn instances_of(word: &str) -> Option<u32>
    ensures { MatchOption result ((n : ℕ) → 0 < n → n ≤ most_instances → word.now ≡ decimal n → ⊥) (λ n. (0 < n) × (n ≤ most_instances) × (word.now ≡ decimal n)) }
{
    let mut number = 0;
    'numbers: while number < MOST_INSTANCES {
        number += 1;
        if spells(word, number) {
            return Some(number);
        }
    }
    None
}

fn spells(word: &str, number: u32) -> bool
    ensures { result ≡ bytes_eq word.now (decimal number) }
{
    let mut buffer = Buffer::new();
    word == buffer.format(number)
}
