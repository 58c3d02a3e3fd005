//! The words of the command line.
ghost use Rattle.std.specs.Prelude.{◌≡◌, ◌≤◌, List, option_map, IfSome};
ghost use Rattle.std.specs.Option.{option_and_then};
ghost use Rattle.pl_inputs.specs.Words.{arity_in, check_by, check_items, generate_by, generate_items, generation_of, number_in, run_by, run_items, task_of, values_by, verify_by, verify_items};
ghost use Rattle.pl_wiring.specs.Labels.{IsArity};
ghost use Rattle.pl_inputs.specs.Met.{MayBeMade, IsWithinLimits, task, texts};

pub use items::Items;
use pl_script::number;

mod items;

/// What the program is asked to do.
#[derive(Clone, Copy, Debug)]
pub enum Task<'a> {
    /// To play a script over captures, on the network of the files.
    Run(Files<'a>),
    /// To read a topology and to tell of its wiring.
    Check { topology: &'a str },
    /// To make a topology, a script and captures, and to play them.
    Generate(Generation),
    /// To read a topology and a saved journal, and to tell whether the journal is legal.
    Verify { topology: &'a str, journal: &'a str },
}

/// What a script is played on.
#[derive(Clone, Copy, Debug, PartialEq, Eq)]
pub enum Network {
    /// The fabric: switches with pseudo addresses, the fabric manager and hosts.
    Fabric,
    /// Learning bridges on a tree of its links, to compare the fabric with.
    Bridges,
}

/// The files that a run reads, and the folder that it saves into.
#[derive(Clone, Copy, Debug)]
pub struct Files<'a> {
    pub network: Network,
    pub topology: &'a str,
    pub script: &'a str,
    pub captures: &'a str,
    pub out: &'a str,
}

/// What is made: a fabric of switches with `k` ports, with a host at each host port, and so many frames,
/// drawn by the number.
#[derive(Clone, Copy, Debug, PartialEq, Eq)]
pub struct Generation {
    /// Even, 4 to 24.
    pub k: u8,
    pub number: u64,
    /// 1 to 100,000.
    pub frames: u32,
}

const RUN_ITEMS: [&str; 4] = ["--topology", "--script", "--captures", "--out"];

const CHECK_ITEMS: [&str; 1] = ["--topology"];

const GENERATE_ITEMS: [&str; 3] = ["--k", "--number", "--frames"];

const VERIFY_ITEMS: [&str; 2] = ["--topology", "--journal"];

/// What the words ask for, of which the first is the program's name and the second the command. None
/// exactly where the words are no command.
#[tactic(auto, unfolding(crate::specs::Words::task_of))]
pub fn task_of<'a>(words: &[&'a str]) -> Option<Task<'a>>
    ensures exact { option_map task result ≡ task_of (texts words.now) }
    ensures within { IfSome result IsWithinLimits }
{
    let (_program, words) = words.split_first()?;
    let (command, words) = words.split_first()?;
    if *command == "run" {
        run(Network::Fabric, words)
    } else if *command == "bridge" {
        run(Network::Bridges, words)
    } else if *command == "check" {
        check(words)
    } else if *command == "gen" {
        generate(words)
    } else if *command == "verify" {
        verify(words)
    } else {
        None
    }
}

fn run<'a>(network: Network, words: &[&'a str]) -> Option<Task<'a>>
    ensures exact { option_map task result ≡ option_and_then (run_by network) (values_by run_items (texts words.now)) }
    ensures within { IfSome result IsWithinLimits }
{
    let items = Items {
        names: &RUN_ITEMS,
        words,
    };
    Some(Task::Run(Files {
        network,
        topology: items.value("--topology")?,
        script: items.value("--script")?,
        captures: items.value("--captures")?,
        out: items.value("--out")?,
    }))
}

fn check<'a>(words: &[&'a str]) -> Option<Task<'a>>
    ensures exact { option_map task result ≡ option_and_then check_by (values_by check_items (texts words.now)) }
    ensures within { IfSome result IsWithinLimits }
{
    let items = Items {
        names: &CHECK_ITEMS,
        words,
    };
    let topology = items.value("--topology")?;
    Some(Task::Check { topology })
}

fn generate<'a>(words: &[&'a str]) -> Option<Task<'a>>
    ensures exact { option_map task result ≡ option_and_then generate_by (values_by generate_items (texts words.now)) }
    ensures within { IfSome result IsWithinLimits }
{
    let items = Items {
        names: &GENERATE_ITEMS,
        words,
    };
    let k = items.value("--k")?;
    let number = items.value("--number")?;
    let frames = items.value("--frames")?;
    Some(Task::Generate(Generation::of(k, number, frames)?))
}

fn verify<'a>(words: &[&'a str]) -> Option<Task<'a>>
    ensures exact { option_map task result ≡ option_and_then verify_by (values_by verify_items (texts words.now)) }
    ensures within { IfSome result IsWithinLimits }
{
    let items = Items {
        names: &VERIFY_ITEMS,
        words,
    };
    let topology = items.value("--topology")?;
    let journal = items.value("--journal")?;
    Some(Task::Verify { topology, journal })
}

impl Generation {
    // None where one of them is no number, or out of range.
    #[tactic(auto, unfolding(crate::specs::Words::generation_of))]
    fn of(k: &str, number: &str, frames: &str) -> Option<Generation>
        ensures exact { result ≡ generation_of k.now number.now frames.now }
        ensures within { IfSome result MayBeMade }
    {
        let k = arity_in(k)?;
        let number = number_in(number, 0, u64::MAX)?;
        let frames = number_in(frames, 1, 100_000)?;
        Some(Generation {
            k,
            number,
            frames: frames as u32,
        })
    }
}

// An even number from 4 to 24.
fn arity_in(text: &str) -> Option<u8>
    ensures exact { result ≡ arity_in text.now }
    ensures arity { IfSome result (λ k. IsArity k) }
{
    let k = number_in(text, 4, 24)?;
    if k % 2 == 0 { Some(k as u8) } else { None }
}

fn number_in(text: &str, least: u64, most: u64) -> Option<u64>
    ensures exact { result ≡ number_in least most text.now }
    ensures at_least { IfSome result (λ n. least ≤ n) }
    ensures within { IfSome result (λ n. n ≤ most) }
{
    match number(text, least, most) {
        Ok(n) => Some(n),
        Err(_) => None,
    }
}
