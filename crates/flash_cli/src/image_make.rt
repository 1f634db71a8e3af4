//! The command `image-make PLAN OUT`.

ghost use Rattle.std.specs.Prelude.{◌≡◌, ◌≤◌, ◌++◌, ◌∷◌, [], OnOk, IfOk, IfErr, length};
ghost use Rattle.image_maker.specs.Plan.{part_names};
ghost use Rattle.image_maker.specs.Image.{image_of};
ghost use Rattle.image_maker.specs.Parts.{files_of};
ghost use Rattle.flash_cli.specs.Command.{ImageMake};
ghost use Rattle.flash_cli.specs.ImageMake.{answer_of_image, image_make_reading, planned_reading};
ghost use Rattle.flash_cli.specs.Report.{AreRead, AreNotRead, IsEnd, IsPlanError, IsWorkedOut, reading_of};

use crate::answer::Answer;
use crate::error::{CommandError, Failure};
use crate::files::needed_file;
use flash_text::{Refusal, put_length};
use image_maker::{MakeNo, Plan, PlanNo, make};
use pipe_ends::Store;
use std::alloc::Global;

/// Carries out `image-make`: the file with the image that a plan and its parts make, or why they
/// make none. A plan that is refused names no parts.
pub(crate) fn run_image_make<S: Store>(
    alloc: Global,
    store: &mut S,
    plan: &str,
    out: &str,
) -> Result<Answer, CommandError>
    ensures exact { IsEnd (S.files store.old) 0 (reading_of (ImageMake plan.now out.now))
        (S.faults store.old) (S.faults store.new) result }
    ensures same { S.files store.new ≡ S.files store.old }
    ensures later { S.faults store.old ≤ S.faults store.new }
{
    let text = needed_file(alloc, store, 0, plan)?;
    make_of_text(alloc, store, &text, out)
}

/// The image of the plan that a text means.
fn make_of_text<S: Store>(
    alloc: Global,
    store: &mut S,
    text: &[u8],
    out: &str,
) -> Result<Answer, CommandError>
    ensures exact { IsEnd (S.files store.old) 1 (image_make_reading out.now text.now)
        (S.faults store.old) (S.faults store.new) result }
    ensures same { S.files store.new ≡ S.files store.old }
    ensures later { S.faults store.old ≤ S.faults store.new }
{
    match Plan::read(alloc, text) {
        Ok(plan) => make_planned(alloc, store, &plan, out),
        Err(why) => Err(plan_error(why)),
    }
}

/// The error of a text that means no plan.
fn plan_error(why: PlanNo) -> CommandError
    ensures exact { IsPlanError why result }
{
    match why {
        PlanNo::Bad { line, why } => CommandError::Refused(Refusal::Plan { line, why }),
        PlanNo::Memory => CommandError::Failed(Failure::Memory),
    }
}

/// The image of a plan with the files that it names.
fn make_planned<S: Store>(
    alloc: Global,
    store: &mut S,
    plan: &Plan,
    out: &str,
) -> Result<Answer, CommandError>
    ensures exact { IsEnd (S.files store.old) 1 (planned_reading out.now plan.now)
        (S.faults store.old) (S.faults store.new) result }
    ensures same { S.files store.new ≡ S.files store.old }
    ensures later { S.faults store.old ≤ S.faults store.new }
{
    match needed_parts(alloc, store, plan) {
        Ok(parts) => make_image(alloc, plan, &parts, out),
        Err(error) => Err(error),
    }
}

/// The files that a plan names, in its order, behind the plan itself.
fn needed_parts<S: Store>(
    alloc: Global,
    store: &mut S,
    plan: &Plan,
) -> Result<Vec<Vec<u8>>, CommandError>
    ensures ok { IfOk result
        (λ parts. AreRead (S.files store.old) 1 (part_names plan.now) (files_of parts.items)) }
    ensures each { IfOk result (λ parts. length parts.items ≡ length plan.now.parts) }
    ensures cause { IfErr result (AreNotRead (S.files store.old) 1 (part_names plan.now)
        (S.faults store.old) (S.faults store.new)) }
    ensures same { S.files store.new ≡ S.files store.old }
    ensures later { S.faults store.old ≤ S.faults store.new }
{
    let mut parts = Vec::new(alloc);
    for i in 0..plan.parts() {
        match needed_file(alloc, store, 1 + i, plan.part_name(i)) {
            Ok(part) => keep(&mut parts, part)?,
            Err(error) => return Err(error),
        }
    }
    Ok(parts)
}

/// Keeps a file behind the others.
fn keep(files: &mut Vec<Vec<u8>>, file: Vec<u8>) -> Result<(), Failure>
    ensures ok { OnOk result (files.new.items ≡ files.old.items ++ file ∷ []) }
    ensures cause { IfErr result (λ failure. failure ≡ Failure.Memory) }
{
    match files.push(file) {
        Ok(()) => Ok(()),
        Err(_) => Err(Failure::Memory),
    }
}

/// The image of a plan whose parts have these bytes, as the file that is put, and how long it is.
fn make_image(
    alloc: Global,
    plan: &Plan,
    parts: &[Vec<u8>],
    out: &str,
) -> Result<Answer, CommandError>
    requires each { length parts.now ≡ length plan.now.parts }
    ensures exact { IsWorkedOut
        (answer_of_image out.now (image_of plan.now (files_of parts.now))) result }
{
    let image = match make(alloc, plan, parts) {
        Ok(image) => image,
        Err(MakeNo::Memory) => return Err(Failure::Memory.into()),
        Err(why) => return Err(Refusal::Make(why).into()),
    };
    let mut text = Vec::new(alloc);
    put_length(&mut text, image.len() as u64)?;
    Answer::with_file(alloc, text, out, image)
}
