//! The call that is open in the kernel.
ghost use Rattle.std.specs.Prelude.{◌≡◌, ◌≤◌, ◌==◌, not, slice_get};
ghost use Rattle.std.specs.List.{AllByRecursion, filter};
ghost use Rattle.wf_outside.specs.Lists.{IsRising};
ghost use Rattle.wf_legal.specs.Calls as calls;

use std::marker::Model;
use wf_verdict::Todo;

/// Pages that a call owes, by rising number.
#[derive(Drop)]
pub struct Owed {
    pages: Vec<u32>,
    gone: usize,
}

impl Model for Owed {
    ghost use Rattle.std.specs.Prelude.{ℕ, List, ◌≤◌, drop, vec_len};
    ghost use Rattle.wf_outside.specs.Lists.{IsRising};

    ghost Value = { List ℕ };

    ghost view = { λ o. drop o.gone o.pages.items };

    ghost invariant = { λ o. (o.gone ≤ vec_len o.pages) × IsRising (drop o.gone o.pages.items) };
}

impl Owed {
    /// These pages.
    pub fn new(pages: Vec<u32>) -> Self
        requires { IsRising pages.items }
        ensures { result ≡ pages.items }
    {
        Owed { pages, gone: 0 }
    }

    /// The first page that is owed.
    pub fn first(&self) -> Option<u32>
        ensures first { result ≡ slice_get self.now 0 }
        ensures rising { IsRising self.now }
    {
        self.pages.get(self.gone).copied()
    }

    /// The page went: it is owed no more. It is the first, or below all that are owed.
    pub fn pay(&mut self, page: u32)
        requires { AllByRecursion (λ other. page ≤ other) self.old }
        ensures { self.new ≡ filter (λ other. not (other == page)) self.old }
    {
        if self.first() == Some(page) {
            self.gone += 1;
        }
    }
}

/// Things that a call has still to do, in this order.
#[derive(Drop)]
pub struct Work {
    todo: Vec<Todo>,
    done: usize,
}

impl Model for Work {
    ghost use Rattle.std.specs.Prelude.{List, ◌≤◌, drop, vec_len};
    ghost use Rattle.wf_verdict.specs.declared.work.Todo.{Todo};

    ghost Value = { List Todo };

    ghost view = { λ w. drop w.done w.todo.items };

    ghost invariant = { λ w. w.done ≤ vec_len w.todo };
}

impl Work {
    /// These things.
    pub fn new(todo: Vec<Todo>) -> Self
        ensures { result ≡ todo.items }
    {
        Work { todo, done: 0 }
    }

    /// The first thing to do.
    pub fn first(&self) -> Option<Todo>
        ensures { result ≡ slice_get self.now 0 }
    {
        self.todo.get(self.done).copied()
    }

    /// The first thing is done, if there is one.
    pub fn pass(&mut self)
        ensures { self.new ≡ calls.later self.old }
    {
        if self.done < self.todo.len() {
            self.done += 1;
        }
    }
}

/// A call in hand.
#[derive(Drop)]
pub enum OpenCall {
    /// It settles: it owes these pages still, and this one was the last that went.
    Settling { owed: Owed, last: Option<u32> },
    /// It does what it has still to do.
    Doing { work: Work },
}
