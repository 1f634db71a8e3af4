//! The program as a function of its words, a store of files, a sink of text and a pace, with both
//! cores at work.

ghost use Rattle.std.specs.Prelude.{◌≡◌, None, Some, IfSome, IsSome};
ghost use Rattle.pipe_ends.specs.Fault.{Rose};
ghost use Rattle.flash_cli.specs.Command.{asked};
ghost use Rattle.update_run.specs.Options.{AreOptions};
ghost use Rattle.flash_cli.specs.UpdateWords.{asked_update, shown_update};
ghost use Rattle.flash_cli.specs.SweepWords.{IsPlain, asked_sweep, shown_sweep};
ghost use Rattle.flash_cli.specs.Status.{IsWork, IsDevices};
ghost use Rattle.flash_cli.specs.Report.{EndsWhole, EndsBeforeText, EndsInText, EndsEarly};
ghost use Rattle.flash_cli.specs.Updating.{UpdateEnds};
ghost use Rattle.flash_cli.specs.Paced.{IsPacedUpdate};
ghost use Rattle.flash_cli.specs.Sweeping.{SweepEnds};

use crate::served::{Served, end_update, refuse_call};
use crate::status::Status;
use crate::sweep_words::Sweep;
use crate::sweeping::run_sweep;
use crate::swept::tell_sweep;
use crate::top::plain;
use crate::update_words::Update;
use crate::updating::run_update;
use flash_ops::Pace;
use pipe_ends::{Sink, Store};
use std::alloc::Global;
use std::sync::Wait;
use std::thread::Threads;

/// Carries out the command that the words are, also one in which both cores are at work. An update
/// puts the flash that is left, whatever ended it, and pushes its lines. A sweep puts no file.
pub(crate) fn serve<S: Store, K: Sink, P: Pace + Sync, R: Threads + Wait + Sync>(
    rt: &R,
    alloc: Global,
    words: &[String],
    store: &mut S,
    out: &mut K,
    pace: &P,
) -> Served
    // Words that are neither an update nor a sweep are carried out as `plain` does.
    ensures work { IsPlain words.now → IsWork result.status
        → EndsWhole (S.files store.old) (asked words.now) result.status
        (S.files store.new) (K.pushed out.old) (K.pushed out.new) }
    ensures unput { IsPlain words.now → result.status ≡ Status.StoreFault
        → EndsBeforeText (S.files store.old) (asked words.now)
        (S.files store.new) (K.pushed out.old) (K.pushed out.new) }
    ensures untold { IsPlain words.now → result.status ≡ Status.SinkFault
        → EndsInText (S.files store.old) (asked words.now)
        (S.files store.new) (K.pushed out.old) (K.pushed out.new) }
    ensures memory { IsPlain words.now → result.status ≡ Status.Memory
        → EndsEarly (S.files store.old) (asked words.now)
        (S.files store.new) (K.pushed out.old) (K.pushed out.new) }
    ensures command { IsPlain words.now → result.status ≡ Status.StoreFault
        → IsSome (asked words.now) }

    // An update ends by its trial, or by its refusal.
    ensures update { IfSome (asked_update words.now) (λ u. UpdateEnds (S.files store.old) u
        result.status result.trial (S.files store.new) (K.pushed out.old) (K.pushed out.new)) }

    // The pace was told of all that an update did, where nothing broke off.
    ensures told { IfSome (asked_update words.now) (λ u. IfSome result.trial
        (IsPacedUpdate (P.told pace.now) (S.files store.old) u)) }

    // A sweep ends by what boots behind its cuts, or by its refusal, and puts no file.
    ensures sweep { IfSome (asked_sweep words.now) (λ s. SweepEnds (S.files store.old) s
        result.status (S.files store.new) (K.pushed out.old) (K.pushed out.new)) }

    // An update alone has a trial, and a status of a device.
    ensures no_trial { asked_update words.now ≡ None → result.trial ≡ None }
    ensures no_device { asked_update words.now ≡ None → ¬ IsDevices result.status }

    // A fault has its cause.
    ensures store_fault { result.status ≡ Status.StoreFault
        → Rose (S.faults store.old) (S.faults store.new) }
    ensures sink_fault { result.status ≡ Status.SinkFault
        → Rose (K.faults out.old) (K.faults out.new) }
{
    match Update::read(words) {
        Some(update) => serve_update(rt, alloc, &update, store, out, pace),
        None => match Sweep::read(words) {
            Some(sweep) => serve_sweep(rt, alloc, &sweep, store, out, pace),
            None => Served {
                status: plain(alloc, words, store, out),
                trial: None,
            },
        },
    }
}

/// Carries out an update.
fn serve_update<S: Store, K: Sink, P: Pace + Sync, R: Threads + Wait + Sync>(
    rt: &R,
    alloc: Global,
    update: &Update<'_>,
    store: &mut S,
    out: &mut K,
    pace: &P,
) -> Served
    requires options { AreOptions update.now.options }
    ensures ends { UpdateEnds (S.files store.old) (shown_update update.now) result.status
        result.trial (S.files store.new) (K.pushed out.old) (K.pushed out.new) }
    ensures told { IfSome result.trial
        (IsPacedUpdate (P.told pace.now) (S.files store.old) (shown_update update.now)) }
    ensures store_fault { result.status ≡ Status.StoreFault
        → Rose (S.faults store.old) (S.faults store.new) }
    ensures sink_fault { result.status ≡ Status.SinkFault
        → Rose (K.faults out.old) (K.faults out.new) }
{
    match run_update(rt, alloc, store, update, pace) {
        Ok(trial) => end_update(alloc, update, trial, store, out),
        Err(error) => refuse_call(alloc, error, out),
    }
}

/// Carries out a sweep.
fn serve_sweep<S: Store, K: Sink, P: Pace + Sync, R: Threads + Wait + Sync>(
    rt: &R,
    alloc: Global,
    sweep: &Sweep<'_>,
    store: &mut S,
    out: &mut K,
    pace: &P,
) -> Served
    ensures ends { SweepEnds (S.files store.old) (shown_sweep sweep.now) result.status
        (S.files store.new) (K.pushed out.old) (K.pushed out.new) }
    ensures trial { result.trial ≡ None }
    ensures no_device { ¬ IsDevices result.status }
    ensures store_fault { result.status ≡ Status.StoreFault
        → Rose (S.faults store.old) (S.faults store.new) }
    ensures sink_fault { result.status ≡ Status.SinkFault
        → Rose (K.faults out.old) (K.faults out.new) }
{
    match run_sweep(rt, alloc, store, sweep, pace) {
        Ok(swept) => Served {
            status: tell_sweep(alloc, &swept, out),
            trial: None,
        },
        Err(error) => refuse_call(alloc, error, out),
    }
}
