//! The machine.
ghost use Rattle.std.specs.Prelude.{◌≡◌, ◌<◌, ◌≤◌, ◌^◌, ℕ, Err, IfOk, is_some, IfSome, None, OnErr, OnOk, false, length, position, true};
ghost use Rattle.std.specs.List.{AllByRecursion};
ghost use Rattle.wf_flat.specs.Boot.{boot_of};
ghost use Rattle.wf_flat.specs.Counts.{used_of};
ghost use Rattle.wf_effects.specs.Generations as generations;
ghost use Rattle.wf_verdict.specs.Requests.{IsKernelRequest};
ghost use Rattle.wf_sound.specs.Sound.{IsDelta};
ghost use Rattle.wf_script.specs.Commands.{IsCommand, IsCount};
ghost use Rattle.wf_report.specs.Reports.{report_bytes};
ghost use Rattle.wf_follow.specs.Follows.{IsCallOf};
ghost use Rattle.wf_follow.specs.Units.{IsTurn, IsUnitOf, hart_in_turn, lowest_running, number_behind};
ghost use Rattle.wf_follow.specs.Unbuilt.{is_built_command};
ghost use Rattle.wf_driver.specs.Machines.{homes_wanted, machine_at, place_of, HasObeyed, HasStopped, MayList, StandsBetween};
ghost use Rattle.wf_driver.specs.Machines.{no_homes};
ghost use Rattle.wf_driver.specs.Making.{HasMade, with_listing};

use crate::housing::account;
use crate::stepping::step;
use crate::wholeness::{data_is_whole, limits_are_sizes, text_is_whole};
use home_laws::{homes_settle, homes_stay};
use std::alloc::Global;
use std::marker::Model;
use std::mem;
use wf_flat::{Actor, BootFault, Entry, Event, Flat, FlatHart, Life, boot};
use wf_outside::{Delta, Image, Limits, Memory, Text};
use wf_report::{Listing, mem_listing, regs_listing, report};
use wf_request::serve_kernel;
use wf_script::Command;
use wf_sound::{births_are_few, journals_keep_sound, starts_are_sound};
use wf_tables::{Homes, tables_listing};
use wf_verdict::Request;

// Whether a hart runs.
fn is_running(life: Life) -> bool
    ensures { result ≡ generations.is_running life }
{
    match life {
        Life::Running => true,
        Life::Exited { .. } => false,
        Life::Trapped { .. } => false,
    }
}

// The place of the first hart that runs.
fn running_place(harts: &[FlatHart]) -> Option<usize>
    ensures place { result ≡ position (λ hart. generations.is_running hart.life) harts.now }
    ensures there { IfSome result (λ i. i < length harts.now) }
{
    harts.iter().position(|hart| is_running(hart.life))
}

// The lowest hart that runs, from this number on.
fn lowest_from(harts: &[FlatHart], least: usize) -> Option<u8>
    requires { length harts.now ≤ 64 }
    ensures lowest { result ≡ lowest_running least 0 harts.now }
    ensures there { IfSome result (λ hart. hart < length harts.now) }
{
    let place = running_place(harts.get(least..)?)?;
    Some((least + place) as u8)
}

// The number behind that of a hart, or the first.
fn behind(last: Option<u8>) -> usize
    ensures { result ≡ number_behind last }
{
    match last {
        Some(hart) => usize::from(hart) + 1,
        None => 0,
    }
}

// A journal has fewer entries than 2^62: their bytes are counted.
fn entries_are_few(entries: &[Entry])
    ensures { length entries.now < 2 ^ 62 }
{
    let _bytes = mem::size_of_val(entries);
}

// The homes at a start, where they are wanted.
fn homes_if(alloc: Global, flat: &Flat, wanted: bool) -> Result<Option<Homes>, Memory>
    ensures { IfOk result (λ homes. homes ≡ homes_wanted wanted flat.now) }
{
    if wanted {
        Ok(Some(Homes::boot(alloc, flat)?))
    } else {
        Ok(None)
    }
}

/// A machine that runs a script: the patches of the run; the state of the flat machine, which is at
/// rest; where everything lay behind the first `accounted` entries, if its script lists page
/// tables; the journal so far; the listings at their places; and the hart that `run` stepped last.
#[derive(Drop)]
pub struct Machine {
    deltas: Vec<Delta>,
    flat: Flat,
    homes: Option<Homes>,
    accounted: usize,
    entries: Vec<Entry>,
    listings: Vec<Listing>,
    last: Option<u8>,
}

impl Model for Machine {
    ghost use Rattle.wf_driver.specs.Machines.{MachineValue};
    ghost use Rattle.wf_driver.specs.Housing.{own_homes};
    ghost use Rattle.wf_driver.specs.Keeping.{IsKept};

    ghost Value = { MachineValue };

    ghost view = { λ m. record {
      deltas = m.deltas.items;
      flat = m.flat;
      homes = own_homes m.homes m.accounted m.entries.items m.flat;
      entries = m.entries.items;
      listings = m.listings.items;
      last = m.last;
    } };

    ghost invariant = { λ m.
        IsKept m.deltas.items m.flat m.entries.items m.homes m.accounted };
}

impl Machine {
    /// So many harts, from 1 to 64, at the start of an image, with an empty journal, where `deltas`
    /// are the patches of the run, and `wanted` says whether page tables are to be listed.
    ///
    /// # Errors
    ///
    /// `NoFrames` where the start needs more frames than there are. `Memory` where memory runs out.
    pub fn new(
        alloc: Global,
        image: &Image,
        harts: u8,
        limits: Limits,
        deltas: Vec<Delta>,
        wanted: bool,
    ) -> Result<Machine, BootFault>
        requires some { 1 ≤ harts }
        requires few { harts ≤ 64 }
        requires patches { AllByRecursion IsDelta deltas.items }
        requires few_patches { length deltas.items < 2 ^ 32 }
        ensures ok { IfOk result
            (λ machine. machine ≡ machine_at deltas.items image.now harts limits wanted) }
        // The frames suffice, or both numbers say that they don't.
        ensures fits { OnOk result (used_of (boot_of image.now harts limits) ≤ limits.frames) }
        ensures no_frames { (need have : ℕ) → result ≡ Err (BootFault.NoFrames need have)
            → (need ≡ used_of (boot_of image.now harts limits)) × (have ≡ limits.frames)
            × (have < need) }
    {
        starts_are_sound();
        text_is_whole(&image.text);
        data_is_whole(&image.pages);
        limits_are_sizes(limits);
        homes_settle();
        let flat = boot(alloc, image, harts, limits)?;
        let homes = homes_if(alloc, &flat, wanted)?;
        Ok(Machine {
            deltas,
            flat,
            homes,
            accounted: 0,
            entries: Vec::new(alloc),
            listings: Vec::new(alloc),
            last: None,
        })
    }

    // The hart whose turn it is, if one runs. It takes at most two passes over the harts.
    fn next_hart(&self) -> Option<u8>
        ensures next { result ≡ hart_in_turn (place_of self.now no_homes) }
        ensures there { IfSome result (λ hart. hart < length self.now.flat.harts) }
    {
        let flat = &self.flat;
        match lowest_from(&flat.harts, behind(self.last)) {
            Some(hart) => Some(hart),
            None => lowest_from(&flat.harts, 0),
        }
    }

    // One unit of a hart. After an error nothing has changed.
    fn make_unit(&mut self, alloc: Global, hart: u8) -> Result<(), Memory>
        requires { hart < length self.old.flat.harts }
        ensures ok { OnOk result (HasMade (IsUnitOf hart) self.old self.new) }
        ensures err { OnErr result (self.new ≡ self.old) }
        ensures harts { length self.new.flat.harts ≡ length self.old.flat.harts }
        ensures deltas { self.new.deltas ≡ self.old.deltas }
        ensures homes { is_some self.new.homes ≡ is_some self.old.homes }
    {
        journals_keep_sound();
        births_are_few();
        entries_are_few(&self.entries);
        homes_settle();
        homes_stay();
        account(
            alloc,
            &mut self.homes,
            &mut self.accounted,
            &self.entries,
            &self.flat,
        )?;
        step(alloc, &mut self.flat, &self.deltas, &mut self.entries, hart)
    }

    // A turn where no hart runs: hart 0 idles. After an error nothing has changed.
    fn idle(&mut self, alloc: Global) -> Result<(), Memory>
        requires { hart_in_turn (place_of self.old no_homes) ≡ None }
        ensures ok { OnOk result (HasMade IsTurn self.old self.new) }
        ensures err { OnErr result (self.new ≡ self.old) }
        ensures harts { length self.new.flat.harts ≡ length self.old.flat.harts }
        ensures deltas { self.new.deltas ≡ self.old.deltas }
        ensures homes { is_some self.new.homes ≡ is_some self.old.homes }
    {
        homes_settle();
        homes_stay();
        account(
            alloc,
            &mut self.homes,
            &mut self.accounted,
            &self.entries,
            &self.flat,
        )?;
        self.entries.push(Entry {
            actor: Actor::Hart(0),
            event: Event::Idle,
        })?;
        Ok(())
    }

    // A turn: a unit of the hart whose turn it is. After an error nothing has changed.
    fn make_turn(&mut self, alloc: Global) -> Result<(), Memory>
        ensures ok { OnOk result (HasMade IsTurn self.old self.new) }
        ensures err { OnErr result (self.new ≡ self.old) }
        ensures harts { length self.new.flat.harts ≡ length self.old.flat.harts }
        ensures deltas { self.new.deltas ≡ self.old.deltas }
        ensures homes { is_some self.new.homes ≡ is_some self.old.homes }
    {
        match self.next_hart() {
            Some(hart) => {
                self.make_unit(alloc, hart)?;
                self.last = Some(hart);
                Ok(())
            }
            None => self.idle(alloc),
        }
    }

    // So many units of a hart.
    fn step(&mut self, alloc: Global, hart: u8, n: u64) -> Result<(), Memory>
        requires { hart < length self.old.flat.harts }
        ensures ok { OnOk result (HasObeyed (Command.Step hart n) self.old self.new) }
        ensures err { OnErr result (HasStopped (Command.Step hart n) self.old self.new) }
        ensures harts { length self.new.flat.harts ≡ length self.old.flat.harts }
        ensures deltas { self.new.deltas ≡ self.old.deltas }
        ensures homes { is_some self.new.homes ≡ is_some self.old.homes }
    {
        for _ in 0..n {
            self.make_unit(alloc, hart)?;
        }
        Ok(())
    }

    // So many turns.
    fn run(&mut self, alloc: Global, n: u64) -> Result<(), Memory>
        ensures ok { OnOk result (HasObeyed (Command.Run n) self.old self.new) }
        ensures err { OnErr result (HasStopped (Command.Run n) self.old self.new) }
        ensures harts { length self.new.flat.harts ≡ length self.old.flat.harts }
        ensures deltas { self.new.deltas ≡ self.old.deltas }
        ensures homes { is_some self.new.homes ≡ is_some self.old.homes }
    {
        for _ in 0..n {
            self.make_turn(alloc)?;
        }
        Ok(())
    }

    // A call of the kernel's own actor. After an error nothing has changed.
    fn call(&mut self, alloc: Global, request: Request) -> Result<(), Memory>
        requires { IsKernelRequest self.old.deltas request }
        ensures ok { OnOk result (HasMade (IsCallOf request) self.old self.new) }
        ensures err { OnErr result (self.new ≡ self.old) }
        ensures harts { length self.new.flat.harts ≡ length self.old.flat.harts }
        ensures deltas { self.new.deltas ≡ self.old.deltas }
        ensures homes { is_some self.new.homes ≡ is_some self.old.homes }
    {
        journals_keep_sound();
        births_are_few();
        entries_are_few(&self.entries);
        homes_settle();
        homes_stay();
        account(
            alloc,
            &mut self.homes,
            &mut self.accounted,
            &self.entries,
            &self.flat,
        )?;
        serve_kernel(
            alloc,
            &mut self.flat,
            &self.deltas,
            &mut self.entries,
            request,
        )
    }

    // A patch comes in. After an error nothing has changed.
    fn patch(&mut self, alloc: Global, index: u32) -> Result<(), Memory>
        requires { index < length self.old.deltas }
        ensures ok { OnOk result (HasObeyed (Command.Patch index false) self.old self.new) }
        ensures err { OnErr result (self.new ≡ self.old) }
        ensures harts { length self.new.flat.harts ≡ length self.old.flat.harts }
        ensures deltas { self.new.deltas ≡ self.old.deltas }
        ensures homes { is_some self.new.homes ≡ is_some self.old.homes }
    {
        self.call(alloc, Request::Patches { patch: index })
    }

    // A generation is cloned. After an error nothing has changed.
    fn create(&mut self, alloc: Global, generation: u32) -> Result<(), Memory>
        requires { generation ≤ 1023 }
        ensures ok { OnOk result (HasObeyed (Command.Create generation) self.old self.new) }
        ensures err { OnErr result (self.new ≡ self.old) }
        ensures harts { length self.new.flat.harts ≡ length self.old.flat.harts }
        ensures deltas { self.new.deltas ≡ self.old.deltas }
        ensures homes { is_some self.new.homes ≡ is_some self.old.homes }
    {
        self.call(
            alloc,
            Request::Clones {
                generation: generation as u64,
            },
        )
    }

    // A generation is deleted. After an error nothing has changed.
    fn delete(&mut self, alloc: Global, generation: u32) -> Result<(), Memory>
        requires { generation ≤ 1023 }
        ensures ok { OnOk result (HasObeyed (Command.Delete generation) self.old self.new) }
        ensures err { OnErr result (self.new ≡ self.old) }
        ensures harts { length self.new.flat.harts ≡ length self.old.flat.harts }
        ensures deltas { self.new.deltas ≡ self.old.deltas }
        ensures homes { is_some self.new.homes ≡ is_some self.old.homes }
    {
        self.call(
            alloc,
            Request::Deletes {
                generation: generation as u64,
            },
        )
    }

    // One more listing, of these lines. After an error nothing has changed.
    fn push_listing(&mut self, lines: Vec<u8>) -> Result<(), Memory>
        ensures ok { OnOk result (self.new ≡ with_listing lines.items self.old) }
        ensures err { OnErr result (self.new ≡ self.old) }
    {
        let place = self.entries.len() as u64;
        self.listings.push(Listing { place, lines })?;
        Ok(())
    }

    // The listing of a hart's registers. After an error nothing has changed.
    fn list_registers(&mut self, alloc: Global, hart: u8) -> Result<(), Memory>
        requires { hart < length self.old.flat.harts }
        ensures ok { OnOk result (HasObeyed (Command.Regs hart) self.old self.new) }
        ensures err { OnErr result (self.new ≡ self.old) }
        ensures harts { length self.new.flat.harts ≡ length self.old.flat.harts }
        ensures deltas { self.new.deltas ≡ self.old.deltas }
        ensures homes { is_some self.new.homes ≡ is_some self.old.homes }
    {
        let lines = regs_listing(alloc, hart, &self.flat)?;
        self.push_listing(lines)
    }

    // The listing of words of data. After an error nothing has changed.
    fn list_words(&mut self, alloc: Global, va: u64, n: u64) -> Result<(), Memory>
        requires low { va < 2 ^ 38 }
        requires few { IsCount 4096 n }
        ensures ok { OnOk result (HasObeyed (Command.Mem va n) self.old self.new) }
        ensures err { OnErr result (self.new ≡ self.old) }
        ensures harts { length self.new.flat.harts ≡ length self.old.flat.harts }
        ensures deltas { self.new.deltas ≡ self.old.deltas }
        ensures homes { is_some self.new.homes ≡ is_some self.old.homes }
    {
        let lines = mem_listing(alloc, va, n, &self.flat)?;
        self.push_listing(lines)
    }

    // The listing of a generation's page table. After an error nothing has changed.
    fn list_tables(&mut self, alloc: Global, generation: u32) -> Result<(), Memory>
        requires { is_some self.old.homes ≡ true }
        ensures ok { OnOk result (HasObeyed (Command.Tables generation) self.old self.new) }
        ensures err { OnErr result (self.new ≡ self.old) }
        ensures harts { length self.new.flat.harts ≡ length self.old.flat.harts }
        ensures deltas { self.new.deltas ≡ self.old.deltas }
        ensures homes { is_some self.new.homes ≡ is_some self.old.homes }
    {
        homes_settle();
        account(
            alloc,
            &mut self.homes,
            &mut self.accounted,
            &self.entries,
            &self.flat,
        )?;
        let Some(homes) = &self.homes else {
            unreachable!();
        };
        let lines = tables_listing(alloc, generation, homes, &self.flat)?;
        self.push_listing(lines)
    }

    /// Carries out a command. `Step` and `Run` make whole units, `Patch`, `Create` and `Delete` a
    /// whole call of the kernel's own actor, `Tables`, `Regs` and `Mem` a listing.
    ///
    /// # Errors
    ///
    /// `Memory` where memory runs out; then the machine stands between two units, with what it made
    /// before.
    pub fn obey(&mut self, alloc: Global, command: Command) -> Result<(), Memory>
        requires there { IsCommand (length self.old.flat.harts) (length self.old.deltas) command }
        requires built { is_built_command command ≡ true }
        requires housed { MayList (is_some self.old.homes) command }
        ensures ok { OnOk result (HasObeyed command self.old self.new) }
        ensures memory { OnErr result (StandsBetween command self.old self.new) }
        ensures harts { length self.new.flat.harts ≡ length self.old.flat.harts }
        ensures deltas { self.new.deltas ≡ self.old.deltas }
        ensures homes { is_some self.new.homes ≡ is_some self.old.homes }
    {
        match command {
            Command::Step { hart, n } => self.step(alloc, hart, n),
            Command::Run { n } => self.run(alloc, n),
            Command::Regs { hart } => self.list_registers(alloc, hart),
            Command::Mem { va, n } => self.list_words(alloc, va, n),
            Command::Patch {
                index,
                begin: false,
            } => self.patch(alloc, index),
            Command::Patch { begin: true, .. } => unreachable!(),
            Command::Create { generation } => self.create(alloc, generation),
            Command::Delete { generation } => self.delete(alloc, generation),
            Command::Tick { .. } => unreachable!(),
            Command::Tables { generation } => self.list_tables(alloc, generation),
        }
    }

    /// The state of the flat machine.
    pub fn state(&self) -> &Flat
        ensures { result.now ≡ self.now.flat }
    {
        &self.flat
    }

    /// The report of what the machine made so far, with the names of its patches.
    pub fn report(&self, alloc: Global, patches: &[Text]) -> Result<Vec<u8>, Memory>
        ensures { IfOk result
            (λ text. text.items
            ≡ report_bytes patches.now self.now.entries self.now.listings self.now.flat) }
    {
        report(alloc, patches, &self.entries, &self.listings, &self.flat)
    }
}
