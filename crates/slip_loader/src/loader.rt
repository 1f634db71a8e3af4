//! The loader: it takes pieces of a stream, and answers the requests in it.

ghost use Rattle.std.specs.Prelude.{◌≡◌, ◌↔◌, ◌≤◌, ◌<◌, ◌^◌, [], ◌∷◌, length, take, None, Some, IfSome, IfNone, IfOk, IfErr, OnOk, OnErr, Ok, Err};
ghost use Rattle.std.specs.Option.{option_map, option_to_list};
ghost use Rattle.nor_device.specs.Nor.{KeepsSetting};
ghost use Rattle.crash_images.specs.Crash.{IsAfterAll, IsLeftOf};
ghost use Rattle.slip_loader.specs.Answers.{plan_answer};
ghost use Rattle.slip_loader.specs.Frames.{requests_from, taken_from};
ghost use Rattle.slip_loader.specs.Loads.{ComesOf, LoadComesOf, MayAnswer, MayRefuse, State, count_after, first_state, load_answers, load_steps, state_after};
ghost use Rattle.slip_loader.specs.Plans.{AreBegun, begun_by, command_of, plan_of, plan_steps};

use crate::answer::{accepted, refused};
use crate::fault::{LoadNo, load_no};
use crate::frame::Frame;
use crate::plan::Begun;
use crate::planning::plan_of;
use crate::request::{block_of, command_of};
use crate::work::do_work;
use arrayvec::ArrayVec;
use crash_images::Crash;
use nor_device::{Nor, NorFault};
use partition_table::Table;
use std::marker::Model;

/// What a call took and answers.
#[derive(Drop)]
pub struct Fed {
    /// How many bytes of the piece were taken.
    pub taken: usize,
    /// The answer to the request that the last of them ends, if it ends one: at most 54 bytes.
    pub reply: Option<ArrayVec<u8, 64>>,
}

/// A loader of a flash: it answers the requests of a stream.
#[derive(Drop)]
pub struct Loader {
    size: u32,
    table: Option<Table>,
    begun: Option<Begun>,
    frame: Frame,
    failed: Option<LoadNo>,
}

// Clauses see what it holds, and how an earlier call was refused.
impl Model for Loader {
    ghost use Rattle.slip_loader.specs.View.{Loading};
    ghost use Rattle.slip_loader.specs.LoaderView.{loading_of, IsLoader};

    ghost Value = { Loading };

    ghost view = { loading_of };

    ghost invariant = { IsLoader };
}

impl Loader {
    /// A loader of a flash of so many bytes, which no C0 has reached. Without a table no partition is
    /// encrypted.
    pub fn new(size: u32, table: Option<Table>) -> Loader
        ensures state { result.state ≡ first_state size table }
        ensures sound { result.failed ≡ None }
    {
        Loader {
            size,
            table,
            begun: None,
            frame: Frame::new(),
            failed: None,
        }
    }

    /// Takes bytes of the piece up to the first C0 that ends a request, else all, and answers the
    /// request. Where the device refuses, each later call answers so and touches nothing.
    pub fn feed<D: Crash>(&mut self, device: &mut D, piece: &[u8]) -> Result<Fed, LoadNo>
        requires idle { D.running device.old ≡ None }
        requires size { D.size device.old ≡ self.old.state.size }
        ensures idle { D.running device.new ≡ None }
        ensures again { IfSome self.old.failed (λ why. (result ≡ Err why) × (self.new ≡ self.old)
            × (device.new ≡ device.old)) }
        ensures taken { IfOk result (λ fed. fed.taken ≡ taken_from self.old.state.behind piece.now) }
        ensures within { IfOk result (λ fed. fed.taken ≤ length piece.now) }
        ensures some { IfOk result (λ fed. 1 ≤ length piece.now → 1 ≤ fed.taken) }
        ensures state { IfOk result (λ fed. self.new.state
            ≡ state_after self.old.state (take fed.taken piece.now)) }
        ensures sound { OnOk result (self.new.failed ≡ None) }
        ensures count { IfOk result (λ fed. length (option_to_list fed.reply)
            ≡ length (requests_from self.old.state.behind (take fed.taken piece.now))) }
        ensures reply { IfOk result (λ fed. IfSome (D.bytes device.old) (λ flash.
            option_to_list (option_map (λ reply. reply.items) fed.reply)
            ≡ load_answers self.old.state flash (take fed.taken piece.now))) }
        ensures made { IfOk result (λ fed. IsAfterAll
            (load_steps self.old.state (take fed.taken piece.now))
            (D.bytes device.old) (D.bytes device.new)) }
        ensures counted { IfOk result (λ fed. D.steps device.new
            ≡ count_after (D.steps device.old) (load_steps self.old.state (take fed.taken piece.now))) }
        ensures left { self.old.failed ≡ None → IsLeftOf (load_steps self.old.state
            (take (taken_from self.old.state.behind piece.now) piece.now))
            (D.bytes device.old) (D.bytes device.new) }
        ensures failed { IfErr result (λ why. self.new.failed ≡ Some why) }
        ensures size { self.new.state.size ≡ self.old.state.size }
        ensures setting { KeepsSetting D.size D.setting device.old device.new }
        ensures allowed { self.old.failed ≡ None
            → IfErr result (MayAnswer D.may_end D.may_refuse (D.setting device.old)) }
        ensures cause { self.old.failed ≡ None → LoadComesOf
            (D.faults device.old) (D.faults device.new) (D.off device.new) result }
    {
        if let Some(why) = self.failed {
            return Err(why);
        }
        let scan = self.frame.scan(piece);
        if !scan.ended {
            return Ok(Fed {
                taken: scan.taken,
                reply: None,
            });
        }
        match respond(
            self.size,
            &self.table,
            &mut self.begun,
            self.frame.bytes(),
            device,
        ) {
            Ok(reply) => {
                self.frame.restart();
                Ok(Fed {
                    taken: scan.taken,
                    reply: Some(reply),
                })
            }
            Err(fault) => {
                let why = load_no(fault);
                self.failed = Some(why);
                Err(why)
            }
        }
    }
}

/// Answers a request, and makes its steps. Where the device refuses, what is open stays.
fn respond<D: Nor>(
    size: u32,
    table: &Option<Table>,
    begun: &mut Option<Begun>,
    frame: &[u8],
    device: &mut D,
) -> Result<ArrayVec<u8, 64>, NorFault>
    requires idle { D.running device.old ≡ None }
    requires size { D.size device.old ≡ size }
    requires head { 8 ≤ length frame.now }
    requires begun { AreBegun size begun.old }
    ensures idle { D.running device.new ≡ None }
    ensures begun { OnOk result (begun.new
        ≡ begun_by (plan_of size table.now begun.old frame.now) begun.old) }
    ensures inside { AreBegun size begun.new }
    ensures reply { IfOk result (λ reply. IfSome (D.bytes device.old) (λ flash. reply.items
        ≡ plan_answer flash (plan_of size table.now begun.old frame.now)
        (command_of frame.now))) }
    ensures made { OnOk result (IsAfterAll
        (plan_steps (plan_of size table.now begun.old frame.now) frame.now)
        (D.bytes device.old) (D.bytes device.new)) }
    ensures left { IsLeftOf
        (plan_steps (plan_of size table.now begun.old frame.now) frame.now)
        (D.bytes device.old) (D.bytes device.new) }
    ensures counted { OnOk result (D.steps device.new ≡ count_after (D.steps device.old)
        (plan_steps (plan_of size table.now begun.old frame.now) frame.now)) }
    ensures setting { KeepsSetting D.size D.setting device.old device.new }
    ensures allowed { IfErr result (MayRefuse D.may_end D.may_refuse (D.setting device.old)) }
    ensures cause { ComesOf (D.faults device.old) (D.faults device.new) (D.off device.new) result }
{
    let command = command_of(frame);
    match plan_of(size, table, *begun, frame) {
        Ok(plan) => {
            let digest = do_work(device, plan.work, block_of(frame))?;
            *begun = plan.begun;
            Ok(accepted(command, digest.as_slice()))
        }
        Err(why) => Ok(refused(command, why)),
    }
}
