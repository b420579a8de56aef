//! The top call.
ghost use Rattle.std.specs.Prelude.{◌≡◌, ◌≢◌, ◌⊎◌, ◌≤◌, ℕ, List, IfErr, IfSome, OnOk, None, Err};
ghost use Rattle.wf_outside.specs.Files.{HasRisen};
ghost use Rattle.wf_status.specs.declared.status.Status.{Status};
ghost use Rattle.wf_patches.specs.Needed.{held_in};
ghost use Rattle.wf_usage.specs.Words.{IsSizedCommand, asked_by};
ghost use Rattle.wf_top.specs.Commands.{CallsFor, OfNamed, OfNeeded, files_for};
ghost use Rattle.wf_top.specs.Answers.{IfAsked, IsFault, PutsFront, PutsOutput};

use crate::laws::answers_are_determined;
use crate::output::output_of;
use std::alloc::Global;
use wf_outside::{Memory, Shelf, Sink, Text};
use wf_put::put_all;
use wf_status::Status;
use wf_usage::{Command, command_of};

// Puts what a command puts.
fn put_output<S: Shelf, K: Sink>(
    alloc: Global,
    command: &Command,
    shelf: &mut S,
    sink: &mut K,
) -> Result<(), Status>
    requires sized { IsSizedCommand command.now }
    ensures done { OnOk result
        (IfSome (files_for command.now (S.holds shelf.old))
        (λ files. PutsOutput command.now (held_in files) (K.got sink.old)
        (K.got sink.new))) }
    ensures cause { IfErr result
        (λ status. IfSome (files_for command.now (S.holds shelf.old))
        (λ files. IsFault status ⊎ CallsFor command.now (held_in files) status)) }
    ensures kind { IfErr result (λ status. (status ≢ Status.Done) × (status ≢ Status.Words)) }
    ensures shelf { result ≡ Err Status.Shelf
        → OfNamed command.now
        (λ name. HasRisen (S.faults shelf.old name) (S.faults shelf.new name)) }
    ensures needed { result ≡ Err Status.Shelf
        → IfSome (files_for command.now (S.holds shelf.old))
        (λ files. OfNeeded command.now (held_in files)
        (λ name. HasRisen (S.faults shelf.old name) (S.faults shelf.new name))) }
    ensures sink { result ≡ Err Status.Sink → HasRisen (K.faults sink.old) (K.faults sink.new) }
    ensures unput { IfErr result (λ status. status ≢ Status.Sink → status ≢ Status.Memory
        → (K.got sink.new ≡ K.got sink.old) × (K.faults sink.new ≡ K.faults sink.old)) }
    ensures front { IfErr result
        (λ status. IfSome (files_for command.now (S.holds shelf.old))
        (λ files. status ≡ Status.Sink
        → PutsFront command.now (held_in files) (K.got sink.old) (K.got sink.new))) }
    ensures front_or_none { IfErr result
        (λ status. IfSome (files_for command.now (S.holds shelf.old))
        (λ files. (K.got sink.new ≡ K.got sink.old)
        ⊎ PutsFront command.now (held_in files) (K.got sink.old) (K.got sink.new))) }
    ensures holds { S.holds shelf.new ≡ S.holds shelf.old }
    ensures counts { (other : List ℕ) → S.faults shelf.old other ≤ S.faults shelf.new other }
{
    let text = output_of(alloc, shelf, command)?;
    put_all(sink, &text)
}

/// Runs a command, whose words these are, on the files of the shelf, and puts its output into the
/// sink. `run IMAGE SCRIPT [--harts N] [--frames N]`: harts run the script on the image, an ELF
/// executable, with the patches that the script names, and the report is put.
/// `check IMAGE JOURNAL`: the journal, a report of a run, is checked against the image, with the
/// patches that the journal names, and `ok N` is put where all of its N entries are right.
/// `asm SOURCE [--object]`: the source is assembled, and the ELF executable that it means is put,
/// or the relocatable file.
/// `make N`: a program of so many functions is made, with patches for it, and its script is run,
/// and a line says how the run ended; no file is read. After `Memory` nothing was put, or a front
/// of the output.
pub fn top<S: Shelf, K: Sink>(alloc: Global, words: &[Text], shelf: &mut S, sink: &mut K) -> Status
    // The words are those of no command.
    ensures words { result ≡ Status.Words → asked_by words.now ≡ None }
    ensures no_command { asked_by words.now ≡ None
        → (result ≡ Status.Words) ⊎ (result ≡ Status.Memory) }

    // The read of a file failed; and of a needed one, where the shelf tells what it holds: of the
    // first, of the second where the first is an image, or of one for a patch that the second
    // names.
    ensures shelf { result ≡ Status.Shelf
        → IfSome (asked_by words.now)
        (λ command. OfNamed command
        (λ name. HasRisen (S.faults shelf.old name) (S.faults shelf.new name))) }
    ensures needed { result ≡ Status.Shelf
        → IfAsked words.now (S.holds shelf.old)
        (λ command held. OfNeeded command held
        (λ name. HasRisen (S.faults shelf.old name) (S.faults shelf.new name))) }

    // A put failed.
    ensures sink { result ≡ Status.Sink → HasRisen (K.faults sink.old) (K.faults sink.new) }

    // What was put is what the command puts: of a run, the journal, listings and final state of one
    // run of the flat machine, which follows the script command by command; of `make`, the line of
    // such a run.
    ensures done { result ≡ Status.Done
        → IfAsked words.now (S.holds shelf.old)
        (λ command held. PutsOutput command held (K.got sink.old) (K.got sink.new)) }

    // What is answered stands in the files, or is a fault; and what the files call for is answered,
    // but for a fault.
    ensures cause { IfAsked words.now (S.holds shelf.old)
        (λ command held. IsFault result ⊎ CallsFor command held result) }
    ensures answer { IfAsked words.now (S.holds shelf.old)
        (λ command held. (status : Status) → CallsFor command held status
        → (result ≡ status) ⊎ IsFault result) }

    // Where the files call for an output, and no count of the faults of a needed file or of the
    // sink rose, the answer is Done or Memory.
    ensures complete { IfAsked words.now (S.holds shelf.old)
        (λ command held. CallsFor command held Status.Done
        → ¬ OfNeeded command held
        (λ name. HasRisen (S.faults shelf.old name) (S.faults shelf.new name))
        → ¬ HasRisen (K.faults sink.old) (K.faults sink.new)
        → (result ≡ Status.Done) ⊎ (result ≡ Status.Memory)) }

    // Nothing is put unless the answer is Done, Sink or Memory; then a front of the output at most.
    ensures unput { result ≢ Status.Done → result ≢ Status.Sink → result ≢ Status.Memory
        → (K.got sink.new ≡ K.got sink.old) × (K.faults sink.new ≡ K.faults sink.old) }
    ensures front { result ≡ Status.Sink
        → IfAsked words.now (S.holds shelf.old)
        (λ command held. PutsFront command held (K.got sink.old) (K.got sink.new)) }
    ensures front_or_none { result ≡ Status.Memory
        → IfAsked words.now (S.holds shelf.old)
        (λ command held. (K.got sink.new ≡ K.got sink.old)
        ⊎ PutsFront command held (K.got sink.old) (K.got sink.new)) }

    // What the shelf holds stays, and no count falls.
    ensures holds { S.holds shelf.new ≡ S.holds shelf.old }
    ensures counts { (other : List ℕ) → S.faults shelf.old other ≤ S.faults shelf.new other }
{
    answers_are_determined();
    let command = match command_of(alloc, words) {
        Ok(Some(command)) => command,
        Ok(None) => return Status::Words,
        Err(Memory) => return Status::Memory,
    };
    match put_output(alloc, &command, shelf, sink) {
        Ok(()) => Status::Done,
        Err(status) => status,
    }
}
