//! A generation of a process meets a page of data.
ghost use Rattle.std.specs.Prelude.{◌≡◌, ◌<◌, ◌≤◌, OnErr, OnOk};
ghost use Rattle.wf_legal.specs.Legal.{Allows, IsLegal};
ghost use Rattle.wf_space.specs.Carried.{MaySync};
ghost use Rattle.wf_process.specs.Meeting.{meeting_entries};
ghost use Rattle.wf_process.specs.Processes.{with_entries, with_entry};

use crate::Process;
use crate::events::note;
use wf_flat::{Actor, Event};
use wf_outside::Memory;

impl Process {
    /// A generation meets a page of data by a hart's call, which that ends. All memory is taken
    /// before anything changes.
    ///
    /// # Errors
    ///
    /// `Memory` where it runs out; nothing has changed then.
    pub fn sync(&mut self, hart: u8, generation: u32, page: u32) -> Result<(), Memory>
        requires room { 0 < self.old.room }
        requires may { Allows self.old.moment (Actor.Hart hart) (Event.Sync generation page) }
        requires page { MaySync self.old.moment.flat generation page }
        ensures ok { OnOk result
            (self.new ≡ with_entry (Actor.Hart hart) (Event.Sync generation page) self.old) }
        ensures err { OnErr result (self.new ≡ self.old) }
    {
        self.body.meet(hart, generation, page)?;
        note(
            &mut self.entries,
            Actor::Hart(hart),
            Event::Sync { generation, page },
        );
        Ok(())
    }

    /// A hart fetches a word and enters the kernel, and its generation meets a page of data by this
    /// call: three entries. All memory is taken before anything changes.
    ///
    /// # Errors
    ///
    /// `Memory` where it runs out; nothing has changed then.
    pub fn fetch_and_sync(
        &mut self,
        hart: u8,
        pc: u64,
        word: u32,
        generation: u32,
        page: u32,
    ) -> Result<(), Memory>
        requires room { 3 ≤ self.old.room }
        requires may { IsLegal self.old.moment (meeting_entries hart pc word generation page) }
        requires page { MaySync self.old.moment.flat generation page }
        ensures ok { OnOk result
            (self.new ≡ with_entries (meeting_entries hart pc word generation page) self.old) }
        ensures err { OnErr result (self.new ≡ self.old) }
    {
        self.body.fetch_and_meet(hart, word, generation, page)?;
        let actor = Actor::Hart(hart);
        note(&mut self.entries, actor, Event::Fetch { pc, word });
        note(&mut self.entries, actor, Event::Enter);
        note(&mut self.entries, actor, Event::Sync { generation, page });
        Ok(())
    }
}
