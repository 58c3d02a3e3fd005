ghost use Rattle.std.specs.Prelude.{◌≡◌, [], Some, None, IfErr, IfNone, IfOk, IfSome};
ghost use Rattle.pl_inputs.specs.declared.words.Network.TheVariants.{Fabric};
ghost use Rattle.pl_inputs.specs.Inputs.{AreRead, Inputs as WhatIsRead};
ghost use Rattle.pl_inputs.specs.Loaded.{inputs_of};
ghost use Rattle.pl_inputs.specs.Met.{texts};
ghost use Rattle.pl_playing.specs.Networks.{PlaysTo};
ghost use Rattle.pl_playing.specs.Outcomes.{IsUntouched};
ghost use Rattle.pl_playing.specs.Watched.{IsPlayedBefore};
ghost use Rattle.pl_shelf.specs.Held.{standard_output};
ghost use Rattle.pl_log_lines.specs.Pages.{HoldsText};
ghost use Rattle.pl_watch.specs.Seen.{HasSeen};
ghost use Rattle.pl_watch_run.specs.Answers.{Answers, AnswersWords, EndsWatching};
ghost use Rattle.pl_watch_run.specs.Words.{asked_of, look_of, watching};

use crate::look::look_of;
use crate::words::{Asked, read_words};
use pl_frame::Memory;
use pl_host::Host;
use pl_inputs::{Inputs, Status, load_inputs};
use pl_log_lines::Look;
use pl_manager::Manager;
use pl_node::HostLogic;
use pl_playing::{Watched, play_before};
use pl_schedule::World;
use pl_shelf::Shelf;
use pl_tables::TableSwitch;
use pl_watch::{Chronicle, DecidedManager, DecidedSwitch, the_journal_stands_in_the_log};
use pl_wiring::Name;
use std::alloc::{AllocError, Global};

/// Plays the script that the words name, and writes what the switches say meanwhile to standard output. Nothing is saved.
///
/// The words are the program's name and then the items of a run, and `--of`, `--kind`, `--lines` and `--json`, which say which lines
/// are shown. The shelf is given back, unless memory ran out.
pub fn watch<D: Shelf + Drop>(alloc: Global, words: &[&str], shelf: D) -> (Option<D>, Status)
    // Nothing stands on standard output yet.
    requires { HoldsText ((D.moment shelf).held standard_output) [] }
    ensures answers { IfSome result.0 (λ after. AnswersWords (D.moment shelf) (D.moment after) (asked_of (texts words.now)) result.1) }
    ensures memory { IfNone result.0 (result.1 ≡ Status.OutOfMemory) }
{
    match answer(alloc, words, shelf) {
        Ok((after, status)) => (Some(after), status),
        Err(_) => (None, Status::OutOfMemory),
    }
}

fn answer<D: Shelf + Drop>(alloc: Global, words: &[&str], shelf: D) -> Result<(D, Status), Memory>
    requires { HoldsText ((D.moment shelf).held standard_output) [] }
    ensures { IfOk result (λ ended. AnswersWords (D.moment shelf) (D.moment ended.0) (asked_of (texts words.now)) ended.1) }
{
    match read_words(alloc, words)? {
        Some(asked) => show(alloc, &asked, shelf),
        None => Ok((shelf, Status::Usage)),
    }
}

// Reads what the words name, and plays it.
fn show<D: Shelf + Drop>(alloc: Global, asked: &Asked<'_>, shelf: D) -> Result<(D, Status), Memory>
    requires { HoldsText ((D.moment shelf).held standard_output) [] }
    ensures { IfOk result (λ ended. Answers (D.moment shelf) (D.moment ended.0) (watching asked.now) ended.1) }
{
    let mut shelf = shelf;
    match load(alloc, asked, &mut shelf) {
        Ok((inputs, look)) => { play::<TableSwitch, Manager, Host, D>(alloc, inputs, look, shelf) }
        Err(status) => Ok((shelf, status)),
    }
}

// What is played, and the lines that are shown of it.
fn load<D: Shelf>(alloc: Global, asked: &Asked<'_>, shelf: &mut D) -> Result<(Inputs, Look), Status>
    ensures same { IfOk result (λ loaded. IsUntouched (D.moment shelf.old) (D.moment shelf.new)) }
    ensures read { IfOk result (λ loaded. AreRead (D.moment shelf.old).held (watching asked.now).files (inputs_of loaded.0)) }
    ensures look { IfOk result (λ loaded. look_of (inputs_of loaded.0).plan.k (watching asked.now) ≡ Some loaded.1) }
    ensures refused { IfErr result (λ e. Answers (D.moment shelf.old) (D.moment shelf.new) (watching asked.now) e) }
{
    match load_inputs(alloc, shelf, &asked.files) {
        Ok(inputs) => match look_of(asked, &inputs.wiring) {
            Some(look) => Ok((inputs, look)),
            None => Err(Status::Usage),
        },
        Err(status) => Err(status),
    }
}

// Plays what was read before the eyes of a log.
fn play<S: DecidedSwitch, M: DecidedManager, H: HostLogic, D: Shelf + Drop>(
    alloc: Global,
    inputs: Inputs,
    look: Look,
    shelf: D,
) -> Result<(D, Status), Memory>
    requires { HoldsText ((D.moment shelf).held standard_output) [] }
    ensures { IfOk result (λ ended. EndsWatching S.rule M.rule H.rule look (inputs_of inputs) (D.moment ended.0) ended.1) }
{
    let log: Chronicle<S, M, D> = Chronicle::begin::<H>(alloc, &inputs.wiring, look, shelf)?;
    let played: Watched<S, M, H, Chronicle<S, M, D>> = play_before(alloc, inputs, log)?;
    finish(alloc, look, played)
}

// The end of the log, and what is answered then.
fn finish<S: DecidedSwitch, M: DecidedManager, H: HostLogic, D: Shelf + Drop>(
    alloc: Global,
    look: Look,
    played: Watched<S, M, H, Chronicle<S, M, D>>,
) -> Result<(D, Status), Memory>
    requires { IfSome played.watcher (λ log. HasSeen S.rule M.rule H.rule log played.world) }
    ensures { IfOk result (λ ended. (i : WhatIsRead) → IsPlayedBefore (PlaysTo S.rule M.rule H.rule Fabric) i played.world played.status →
        EndsWatching S.rule M.rule H.rule look i (D.moment ended.0) ended.1) }
{
    let Watched {
        world,
        watcher,
        status,
    } = played;
    close_kept(alloc, look, &world, watcher, status)
}

fn close_kept<S: DecidedSwitch, M: DecidedManager, H: HostLogic, D: Shelf + Drop>(
    alloc: Global,
    look: Look,
    world: &World<S, M, H>,
    watcher: Option<Chronicle<S, M, D>>,
    status: Status,
) -> Result<(D, Status), Memory>
    requires { IfSome watcher (λ log. HasSeen S.rule M.rule H.rule log world.now) }
    ensures { IfOk result (λ ended. (i : WhatIsRead) → IsPlayedBefore (PlaysTo S.rule M.rule H.rule Fabric) i world.now status →
        EndsWatching S.rule M.rule H.rule look i (D.moment ended.0) ended.1) }
{
    match watcher {
        Some(log) => close_shown(alloc, look, world, log, status),
        None => Err(AllocError),
    }
}

// A log shows the same lines to its end, but a watcher's contract does not say so.
fn close_shown<S: DecidedSwitch, M: DecidedManager, H: HostLogic, D: Shelf + Drop>(
    alloc: Global,
    look: Look,
    world: &World<S, M, H>,
    log: Chronicle<S, M, D>,
    status: Status,
) -> Result<(D, Status), Memory>
    requires { HasSeen S.rule M.rule H.rule log world.now }
    ensures { IfOk result (λ ended. (i : WhatIsRead) → IsPlayedBefore (PlaysTo S.rule M.rule H.rule Fabric) i world.now status →
        EndsWatching S.rule M.rule H.rule look i (D.moment ended.0) ended.1) }
{
    if !log.shows(&look) {
        return Err(AllocError);
    }
    close(alloc, world, log, status)
}

fn close<S: DecidedSwitch, M: DecidedManager, H: HostLogic, D: Shelf + Drop>(
    alloc: Global,
    world: &World<S, M, H>,
    log: Chronicle<S, M, D>,
    status: Status,
) -> Result<(D, Status), Memory>
    requires { HasSeen S.rule M.rule H.rule log world.now }
    ensures { IfOk result (λ ended. (i : WhatIsRead) → IsPlayedBefore (PlaysTo S.rule M.rule H.rule Fabric) i world.now status →
        EndsWatching S.rule M.rule H.rule log.look i (D.moment ended.0) ended.1) }
{
    the_journal_stands_in_the_log::<S, M, H>();
    // A wiring is a fat tree.
    let _hosts = world.wiring().hosts();
    let (shelf, is_written) = log.end(world);
    if !is_written {
        return Ok((shelf, Status::WriteFault(Name::copy(alloc, "-")?)));
    }
    Ok((shelf, status))
}
