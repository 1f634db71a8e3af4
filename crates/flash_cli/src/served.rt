//! How a call with an update ends.

ghost use Rattle.std.specs.Prelude.{◌≡◌, None, Some};
ghost use Rattle.pipe_ends.specs.Fault.{Rose};
ghost use Rattle.update_run.specs.Options.{AreOptions};
ghost use Rattle.flash_cli.specs.UpdateWords.{shown_update};
ghost use Rattle.flash_cli.specs.Served.{AreReadable, EndsBy, IsPushed, IsRefusal, IsUpdateWork, Refuses};
ghost use Rattle.update_run.specs.Updating.{last_end};
ghost use Rattle.flash_cli.specs.Updating.{status_by};

use crate::error::CommandError;
use crate::status::Status;
use crate::update_words::Update;
use flash_text::{Refusal, put_refusal, put_update};
use pipe_ends::{PushFault, PutFault, Sink, Store};
use power_cut::{Leg, LegEnd, Trial};
use std::alloc::Global;

/// How a call ended: its status, and the trial of an update, where one was made.
#[derive(Drop)]
pub(crate) struct Served {
    pub(crate) status: Status,
    pub(crate) trial: Option<Trial>,
}

/// Ends a call with the trial of an update: its flash is put, then its lines are pushed.
pub(crate) fn end_update<S: Store, K: Sink>(
    alloc: Global,
    update: &Update<'_>,
    trial: Trial,
    store: &mut S,
    out: &mut K,
) -> Served
    requires options { AreOptions update.now.options }
    requires readable { AreReadable trial }
    ensures trial { result.trial ≡ Some trial }
    ensures ends { EndsBy (shown_update update.now) trial result.status (S.files store.old)
        (S.files store.new) (K.pushed out.old) (K.pushed out.new) }
    ensures store_fault { result.status ≡ Status.StoreFault
        → Rose (S.faults store.old) (S.faults store.new) }
    ensures sink_fault { result.status ≡ Status.SinkFault
        → Rose (K.faults out.old) (K.faults out.new) }
{
    let status = tell_update(alloc, update, &trial, store, out);
    Served {
        status,
        trial: Some(trial),
    }
}

/// Puts the flash of an update, then pushes its lines; the status of the call.
fn tell_update<S: Store, K: Sink>(
    alloc: Global,
    update: &Update<'_>,
    trial: &Trial,
    store: &mut S,
    out: &mut K,
) -> Status
    requires options { AreOptions update.now.options }
    requires readable { AreReadable trial.now }
    ensures ends { EndsBy (shown_update update.now) trial.now result (S.files store.old)
        (S.files store.new) (K.pushed out.old) (K.pushed out.new) }
    ensures store_fault { result ≡ Status.StoreFault
        → Rose (S.faults store.old) (S.faults store.new) }
    ensures sink_fault { result ≡ Status.SinkFault
        → Rose (K.faults out.old) (K.faults out.new) }
{
    let mut text = Vec::new(alloc);
    if put_update(&mut text, update.options.driver, trial).is_err() {
        return Status::Memory;
    }
    match store.put(alloc, update.out, &trial.flash) {
        Ok(()) => push_lines(alloc, &text, status_of(trial.legs.as_slice()), out),
        Err(PutFault::Failed) => Status::StoreFault,
        Err(PutFault::Memory) => Status::Memory,
    }
}

/// Pushes lines; the status of the call, which is this one if they were pushed.
pub(crate) fn push_lines<K: Sink>(alloc: Global, text: &[u8], status: Status, out: &mut K) -> Status
    requires work { IsUpdateWork status }
    ensures pushed { IsPushed text.now status result (K.pushed out.old) (K.pushed out.new) }
    ensures sink_fault { result ≡ Status.SinkFault
        → Rose (K.faults out.old) (K.faults out.new) }
{
    match out.push(alloc, text) {
        Ok(()) => status,
        Err(PushFault::Failed) => Status::SinkFault,
        Err(PushFault::Memory) => Status::Memory,
    }
}

/// Ends a call with an update or a sweep that was not made: the line of its refusal is pushed.
pub(crate) fn refuse_call<K: Sink>(alloc: Global, error: CommandError, out: &mut K) -> Served
    ensures trial { result.trial ≡ None }
    ensures ends { Refuses error result.status (K.pushed out.old) (K.pushed out.new) }
    ensures sink_fault { result.status ≡ Status.SinkFault
        → Rose (K.faults out.old) (K.faults out.new) }
{
    let status = match error {
        CommandError::Absent { file, name } => {
            tell_refusal(alloc, name.as_str(), Refusal::Absent { file }, out)
        }
        CommandError::Refused(why) => tell_refusal(alloc, "", why, out),
        CommandError::Failed(failure) => failure.status(),
    };
    Served {
        status,
        trial: None,
    }
}

/// Pushes the line of a refusal. The name is that of the absent file.
fn tell_refusal<K: Sink>(alloc: Global, name: &str, why: Refusal, out: &mut K) -> Status
    ensures told { IsRefusal name.now why result (K.pushed out.old) (K.pushed out.new) }
    ensures sink_fault { result ≡ Status.SinkFault
        → Rose (K.faults out.old) (K.faults out.new) }
{
    let mut text = Vec::new(alloc);
    if put_refusal(&mut text, name, why).is_err() {
        return Status::Memory;
    }
    push_lines(alloc, &text, Status::Refused(why), out)
}

/// The status of an update by its legs: by how the last one ended.
fn status_of(legs: &[Leg]) -> Status
    ensures exact { result ≡ status_by (last_end legs.now) }
{
    status_by(last_end(legs))
}

/// How the last of the legs ended.
fn last_end(legs: &[Leg]) -> LegEnd
    ensures exact { result ≡ last_end legs.now }
{
    match legs {
        [] => LegEnd::Done,
        [leg] => leg.end,
        [_, more @ ..] => last_end(more),
    }
}

/// The status of an update whose last leg ended so.
fn status_by(end: LegEnd) -> Status
    ensures exact { result ≡ status_by end }
{
    match end {
        LegEnd::Done => Status::Done,
        LegEnd::Device { step } => Status::DeviceFault { step },
        LegEnd::Cut { step } => Status::PowerCut { step },
        LegEnd::FirstByte { byte } => Status::Refused(Refusal::FirstByte { byte }),
        LegEnd::Empty => Status::Refused(Refusal::Empty),
        LegEnd::Bad(why) => Status::Refused(Refusal::Image(why)),
    }
}
