//! Runs of scripts, and their reports.
ghost use Rattle.std.specs.Prelude.{◌≡◌, ◌<◌, ◌≤◌, ◌⊎◌, ◌^◌, ℕ, List, IfErr, IfOk, IfSome, OnOk, Err, is_some, length};
ghost use Rattle.std.specs.List.{AllByRecursion};
ghost use Rattle.wf_outside.specs.Files.{HasRisen};
ghost use Rattle.wf_status.specs.declared.status.Status.{Status};
ghost use Rattle.wf_script.specs.Commands.{IsCommand, IsScript};
ghost use Rattle.wf_sound.specs.Sound.{IsDelta};
ghost use Rattle.wf_report.specs.Reports.{report_bytes};
ghost use Rattle.wf_follow.specs.Unbuilt.{AreBuilt};
ghost use Rattle.wf_driver.specs.Machines.{MayList, machine_at};
ghost use Rattle.wf_journal.specs.Journals.{IsSized};
ghost use Rattle.wf_fetch.specs.Stages.{IsReadFault};
ghost use Rattle.wf_patches.specs.Needed.{OfSome, held_in};
ghost use Rattle.wf_run.specs.Stages.{frames_used, limits_of};
ghost use Rattle.wf_run.specs.Answers.{CallsFor, HasRun, HoldsReport, HoldsRun, MayFail, OfNeeded};
ghost use Rattle.wf_run.specs.Following as following;
ghost use Rattle.wf_run.specs.Following.{HasFollowed, IsStartStatus};

use crate::files::{RunFiles, fetch_files};
use std::alloc::Global;
use wf_driver::Machine;
use wf_flat::BootFault;
use wf_outside::{Delta, Image, Limits, MOST_BIRTHS, MOST_WRITES, Memory, Shelf};
use wf_script::{Command, Script};
use wf_status::{LimitKind, Status};
use wf_usage::Sizes;

/// A run that was made: its script, and the machine at its end.
#[derive(Drop)]
pub struct Ran {
    pub script: Script,
    pub machine: Machine,
}

impl Ran {
    /// The report of the run, in bytes.
    ///
    /// # Errors
    ///
    /// `Memory` where memory runs out; the run stays.
    pub fn report(&self, alloc: Global) -> Result<Vec<u8>, Memory>
        ensures { IfOk result
            (λ text. text.items
            ≡ report_bytes self.now.script.patches self.now.machine.entries
            self.now.machine.listings self.now.machine.flat) }
    {
        self.machine.report(alloc, &self.script.patches)
    }
}

// Carries out commands, one after another.
fn follow(machine: &mut Machine, alloc: Global, commands: &[Command]) -> Result<(), Memory>
    requires there { AllByRecursion
        (IsCommand (length machine.old.flat.harts) (length machine.old.deltas)) commands.now }
    requires built { AreBuilt commands.now }
    requires housed { AllByRecursion (MayList (is_some machine.old.homes)) commands.now }
    ensures { OnOk result (HasFollowed commands.now machine.old machine.new) }
{
    for command in commands {
        machine.obey(alloc, *command)?;
    }
    Ok(())
}

// Whether a command lists a page table.
fn is_tables(command: Command) -> bool
    ensures { result ≡ following.is_tables command }
{
    match command {
        Command::Tables { .. } => true,
        Command::Step { .. } | Command::Tick { .. } | Command::Run { .. } => false,
        Command::Patch { .. } | Command::Create { .. } | Command::Delete { .. } => false,
        Command::Regs { .. } | Command::Mem { .. } => false,
    }
}

// Whether one of the commands does.
fn list_tables(commands: &[Command]) -> bool
    ensures { result ≡ following.list_tables commands.now }
{
    commands.iter().any(|command| is_tables(*command))
}

// The machine of a run at its start, with these patches, and with homes where page tables are to be
// listed; or the limit of its frames.
fn start(
    alloc: Global,
    sizes: Sizes,
    image: &Image,
    deltas: Vec<Delta>,
    wanted: bool,
) -> Result<Machine, Status>
    requires sized { IsSized sizes.harts sizes.frames }
    requires patches { AllByRecursion IsDelta deltas.items }
    requires few { length deltas.items < 2 ^ 32 }
    ensures ok { IfOk result
        (λ machine. machine
        ≡ machine_at deltas.items image.now sizes.harts (limits_of sizes) wanted) }
    ensures fits { OnOk result (frames_used sizes image.now ≤ sizes.frames) }
    ensures cause { IfErr result (IsStartStatus sizes image.now) }
{
    let limits = Limits {
        frames: sizes.frames,
        last_writes: MOST_WRITES,
        last_birth: MOST_BIRTHS,
    };
    match Machine::new(alloc, image, sizes.harts, limits, deltas, wanted) {
        Ok(machine) => Ok(machine),
        Err(BootFault::NoFrames { need, have }) => Err(Status::Limit {
            what: LimitKind::Frames,
            number: need,
            most: have,
        }),
        Err(BootFault::Memory) => Err(Status::Memory),
    }
}

// The run of files; or why there is none.
fn run(alloc: Global, sizes: Sizes, files: RunFiles) -> Result<Ran, Status>
    requires sized { IsSized sizes.harts sizes.frames }
    requires script { IsScript sizes.harts files.script }
    requires built { AreBuilt files.script.commands }
    requires patches { AllByRecursion IsDelta files.deltas }
    requires all { length files.deltas ≡ length files.script.patches }
    ensures ok { IfOk result (λ ran. HasRun sizes files ran.machine) }
    ensures script { IfOk result (λ ran. ran.script ≡ files.script) }
    ensures fits { OnOk result (frames_used sizes files.image ≤ sizes.frames) }
    ensures cause { IfErr result (IsStartStatus sizes files.image) }
{
    let RunFiles {
        image,
        script,
        deltas,
    } = files;
    let wanted = list_tables(&script.commands);
    let mut machine = start(alloc, sizes, &image, deltas, wanted)?;
    match follow(&mut machine, alloc, &script.commands) {
        Ok(()) => Ok(Ran { script, machine }),
        Err(Memory) => Err(Status::Memory),
    }
}

/// The run of the script of one name on the image of another, with the patches that the script
/// names.
///
/// # Errors
///
/// What the files call for: the first stage that fails of image, script, patches and frames. And
/// `Shelf` where the read of a needed name failed, and `Memory`.
pub fn fetch_run<S: Shelf>(
    alloc: Global,
    shelf: &mut S,
    sizes: Sizes,
    image_name: &[u8],
    script_name: &[u8],
) -> Result<Ran, Status>
    requires sized { IsSized sizes.harts sizes.frames }
    ensures ok { IfOk result
        (λ ran. IfSome (S.holds shelf.old)
        (λ files. HoldsRun sizes (held_in files) image_name.now script_name.now ran.script
        ran.machine)) }
    ensures cause { IfErr result
        (λ status. IfSome (S.holds shelf.old)
        (λ files. IsReadFault status
        ⊎ CallsFor sizes (held_in files) image_name.now script_name.now status)) }
    ensures kind { IfErr result MayFail }
    ensures shelf { result ≡ Err Status.Shelf
        → OfSome (λ name. HasRisen (S.faults shelf.old name) (S.faults shelf.new name)) }
    ensures needed { result ≡ Err Status.Shelf
        → IfSome (S.holds shelf.old)
        (λ files. OfNeeded sizes (held_in files) image_name.now script_name.now
        (λ name. HasRisen (S.faults shelf.old name) (S.faults shelf.new name))) }
    ensures holds { S.holds shelf.new ≡ S.holds shelf.old }
    ensures counts { (other : List ℕ) → S.faults shelf.old other ≤ S.faults shelf.new other }
{
    let files = fetch_files(alloc, shelf, sizes, image_name, script_name)?;
    run(alloc, sizes, files)
}

/// The report of a run of the script of one name on the image of another, with the patches that the
/// script names.
///
/// # Errors
///
/// Those of `fetch_run`.
pub fn fetch_report<S: Shelf>(
    alloc: Global,
    shelf: &mut S,
    sizes: Sizes,
    image_name: &[u8],
    script_name: &[u8],
) -> Result<Vec<u8>, Status>
    requires sized { IsSized sizes.harts sizes.frames }
    ensures ok { IfOk result
        (λ text. IfSome (S.holds shelf.old)
        (λ files. HoldsReport sizes (held_in files) image_name.now script_name.now
        text.items)) }
    ensures cause { IfErr result
        (λ status. IfSome (S.holds shelf.old)
        (λ files. IsReadFault status
        ⊎ CallsFor sizes (held_in files) image_name.now script_name.now status)) }
    ensures kind { IfErr result MayFail }
    ensures shelf { result ≡ Err Status.Shelf
        → OfSome (λ name. HasRisen (S.faults shelf.old name) (S.faults shelf.new name)) }
    ensures needed { result ≡ Err Status.Shelf
        → IfSome (S.holds shelf.old)
        (λ files. OfNeeded sizes (held_in files) image_name.now script_name.now
        (λ name. HasRisen (S.faults shelf.old name) (S.faults shelf.new name))) }
    ensures holds { S.holds shelf.new ≡ S.holds shelf.old }
    ensures counts { (other : List ℕ) → S.faults shelf.old other ≤ S.faults shelf.new other }
{
    let ran = fetch_run(alloc, shelf, sizes, image_name, script_name)?;
    match ran.report(alloc) {
        Ok(text) => Ok(text),
        Err(Memory) => Err(Status::Memory),
    }
}
