//! Harts as a process keeps them.
ghost use Rattle.std.specs.Prelude.{◌≡◌};
ghost use Rattle.wf_process.specs.Harts as harts;

use rv_inst::Arch;
use wf_flat::Life;
use wf_homes::CoreReservation;

/// A hart: its generation and registers; in a try the word that it fetched, the answer of its
/// access or call, and whether its write was made; its reservation; and whether it runs.
#[derive(Drop)]
pub struct KeptHart {
    pub generation: u32,
    pub arch: Arch,
    pub fetched: Option<u32>,
    pub looked: Option<u64>,
    pub put: bool,
    pub reservation: Option<CoreReservation>,
    pub life: Life,
}

impl KeptHart {
    /// A try begins with this word.
    pub fn fetch(&mut self, word: u32)
        ensures { self.new ≡ harts.kept_fetched word self.old }
    {
        self.fetched = Some(word);
        self.looked = None;
        self.put = false;
    }

    /// The try ends, with these registers.
    pub fn end(&mut self, next: Arch)
        ensures { self.new ≡ harts.kept_ended next self.old }
    {
        self.arch = next;
        self.fetched = None;
    }

    /// The try, if the hart is in one, ends, and nothing came of it.
    pub fn give_up(&mut self)
        ensures { self.new ≡ harts.kept_tried self.old }
    {
        self.fetched = None;
    }

    /// The try, if the hart is in one, ends, and the hart has come to this.
    pub fn stop(&mut self, life: Life)
        ensures { self.new ≡ harts.kept_stopped life self.old }
    {
        self.fetched = None;
        self.life = life;
    }

    /// Its call, or its access, has this answer.
    pub fn answer(&mut self, answer: u64)
        ensures { self.new ≡ harts.kept_answered answer self.old }
    {
        self.looked = Some(answer);
    }

    /// Its store-conditional misses.
    pub fn miss(&mut self)
        ensures { self.new ≡ harts.kept_missed self.old }
    {
        self.looked = Some(1);
        self.reservation = None;
    }

    /// Its write is made, with this answer, and the try ends, with these registers; a
    /// store-conditional leaves no reservation.
    pub fn end_write(&mut self, answer: u64, conditional: bool, next: Arch)
        ensures { self.new ≡ harts.kept_written answer conditional next self.old }
    {
        self.arch = next;
        self.fetched = None;
        self.looked = Some(answer);
        self.put = true;
        if conditional {
            self.reservation = None;
        }
    }

    /// Its load-reserved has this answer, and leaves this reservation.
    pub fn reserve(&mut self, answer: u64, reservation: Option<CoreReservation>)
        ensures { self.new ≡ harts.kept_reserved answer reservation self.old }
    {
        self.looked = Some(answer);
        self.reservation = reservation;
    }
}
