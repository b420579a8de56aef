//! The memory of a machine: what is planned of it, and done.
ghost use Rattle.std.specs.Prelude.{◌≡◌, None, IfOk, MatchResult, OnErr, OnOk, map};
ghost use Rattle.wf_outside.specs.Lists.{IsRising};
ghost use Rattle.wf_views.specs.Views.{generation_number};
ghost use Rattle.wf_space.specs.Carried.{IsCarriedOut, IsCurrent, IsSpaceFault, StandAlike};
ghost use Rattle.wf_space.specs.Jobs.{CanDo, IsPlanOf, RecordsHaveRoom, refusal_in};

use crate::{Job, SpaceFault, carry_out, fill, prepare};
use std::alloc::Global;
use wf_frames::Words;
use wf_outside::Memory;
use wf_views::{Plan, Records};

/// The records of a machine's memory, by which calls are planned and carried out in its words.
#[derive(Drop)]
pub struct Space {
    pub records: Records,
    alloc: Global,
}

// The views of records stand by rising generation.
fn views_rise(records: &Records)
    ensures { IsRising (map generation_number records.now.views.views) }
{
    let _count = records.views.len();
}

impl Space {
    /// The memory that these records are of.
    pub fn new(alloc: Global, records: Records) -> Space
        ensures { result.records ≡ records }
    {
        Space { records, alloc }
    }

    /// The plan of an unmap of so many pages, from that of an address on, which all are below
    /// 2 ^ 38. Nothing is done yet.
    ///
    /// # Errors
    ///
    /// `Refused` with the first refusal that applies, and `Memory` where it runs out.
    pub fn unmap(&mut self, va: u64, pages: u64) -> Result<Plan, SpaceFault>
        requires { CanDo self.old.records (Job.Unmap va pages) }
        ensures plan { IfOk result (IsPlanOf self.new.records (Job.Unmap va pages)) }
        ensures fault { MatchResult result
            (λ _. refusal_in self.old.records (Job.Unmap va pages) ≡ None)
            (IsSpaceFault self.old.records (Job.Unmap va pages)) }
        ensures same { self.new.records ≡ self.old.records }
    {
        let job = Job::Unmap { va, pages };
        let mut plan = prepare(self.alloc, &mut self.records, job)?;
        fill(&self.records, &mut plan, job)?;
        Ok(plan)
    }

    /// The plan of a generation that meets a page: the page is here, and the generation lives and
    /// hasn't met it. Nothing is done yet.
    ///
    /// # Errors
    ///
    /// `Memory` where it runs out; the records are as they were.
    pub fn sync(&mut self, generation: u32, page: u32) -> Result<Plan, Memory>
        requires { CanDo self.old.records (Job.Sync generation page) }
        ensures plan { IfOk result (IsPlanOf self.new.records (Job.Sync generation page)) }
        ensures room { OnOk result
            (RecordsHaveRoom self.new.records (Job.Sync generation page)) }
        ensures alike { OnOk result (StandAlike self.old.records self.new.records) }
        ensures err { OnErr result (self.new.records ≡ self.old.records) }
    {
        let job = Job::Sync { generation, page };
        let mut plan = prepare(self.alloc, &mut self.records, job)?;
        let Ok(()) = fill(&self.records, &mut plan, job) else {
            unreachable!();
        };
        Ok(plan)
    }

    /// A plan that was made last for this memory is carried out, all of it. Words and records stand
    /// for the state after its call then.
    pub fn carry(&mut self, words: &mut Words, plan: Plan)
        requires { IsCurrent words.old self.old.records plan }
        ensures { IsCarriedOut words.old self.old.records plan words.new self.new.records }
    {
        views_rise(&self.records);
        carry_out(words, &mut self.records, plan);
    }
}
