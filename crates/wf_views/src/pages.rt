//! The data pages of a machine.
ghost use Rattle.std.specs.Prelude.{◌≡◌, ◌<◌, ◌≤◌, [], None, OnOk, OnErr, IsOk, MatchResult, get_or, length, map, option_copied, slice_get};
ghost use Rattle.std.specs.List.{insert, remove};
ghost use Rattle.wf_outside.specs.Lists.{IsRising};
ghost use Rattle.wf_views.specs.declared.pages.PageAt.{PageAt as OnePage};
ghost use Rattle.wf_views.specs.Lists.{found_by, inserted_by, roomier, without_by};
ghost use Rattle.wf_views.specs.Pages.{made_ending, made_going, page_added, page_at, page_changed, page_number, page_removed};

use crate::Roomy;
use std::alloc::Global;
use std::marker::Model;
use wf_outside::Memory;

/// A data page: its number, an address divided by 4,096; whether it may be written; its frame; and
/// its stage. A page that is neither going nor ending is here.
#[derive(Clone, Copy, Debug, PartialEq, Eq)]
pub struct PageAt {
    pub page: u32,
    pub write: bool,
    pub frame: u32,
    /// A call that unmaps it runs. Every hart may still access it.
    pub going: bool,
    /// It is unmapped, and the hart that holds it may still finish its try.
    pub ending: bool,
}

/// The data pages by rising number, each number once, with room for more.
#[derive(Drop)]
pub struct Pages {
    pages: Roomy<PageAt>,
}

impl Model for Pages {
    ghost use Rattle.std.specs.Prelude.{map};
    ghost use Rattle.wf_outside.specs.Lists.{IsRising};
    ghost use Rattle.wf_views.specs.declared.pages.PageAt.{PageAt};
    ghost use Rattle.wf_views.specs.Lists.{RoomyValue};
    ghost use Rattle.wf_views.specs.Pages.{page_number};

    ghost Value = { RoomyValue PageAt };

    ghost view = { λ p. p.pages };

    ghost invariant = { λ p. IsRising (map page_number p.pages.items) };
}

impl Pages {
    /// No pages, and no room.
    pub fn new(alloc: Global) -> Pages
        ensures items { result.items ≡ [] }
        ensures room { result.room ≡ 0 }
    {
        Pages {
            pages: Roomy::new(alloc),
        }
    }

    /// The pages, by rising number.
    pub fn as_slice(&self) -> &[PageAt]
        ensures value { result.now ≡ self.now.items }
        ensures rising { IsRising (map page_number self.now.items) }
    {
        let pages = &self.pages;
        pages.as_slice()
    }

    /// The page of a number; `None` where there is none. It takes time in the logarithm of the
    /// pages.
    pub fn find(&self, page: u32) -> Option<PageAt>
        ensures { result ≡ page_at self.now page }
    {
        let pages = self.as_slice();
        match place_of(pages, page) {
            Ok(at) => Some(pages[at]),
            Err(_) => None,
        }
    }

    /// How many pages come without memory.
    pub fn room(&self) -> u64
        ensures { result ≡ self.now.room }
    {
        self.pages.room()
    }

    /// Makes room for so many pages, unless there is more already. Where it fails nothing changes.
    pub fn reserve(&mut self, room: u64) -> Result<(), Memory>
        ensures ok { OnOk result (self.new ≡ roomier room self.old) }
        ensures err { OnErr result (self.new ≡ self.old) }
        ensures succeeds { room ≤ self.old.room → IsOk result }
    {
        self.pages.reserve(room)
    }

    /// One more page, of a number that no page has, and for which there is room.
    pub fn add(&mut self, page: PageAt)
        requires absent { page_at self.old page.page ≡ None }
        requires room { 0 < self.old.room }
        ensures { self.new ≡ page_added page self.old }
    {
        let Err(at) = place_of(self.as_slice(), page.page) else {
            unreachable!();
        };
        self.pages.insert(at, page);
    }

    /// The page of a number is taken out; `None` where there is none. It takes one pass over the
    /// pages.
    pub fn remove(&mut self, page: u32) -> Option<PageAt>
        ensures value { result ≡ page_at self.old page }
        ensures rest { self.new ≡ page_removed page self.old }
    {
        match place_of(self.as_slice(), page) {
            Ok(at) => Some(self.pages.remove(at)),
            Err(_) => None,
        }
    }

    /// The page of a number is going, where there is one.
    pub fn set_going(&mut self, page: u32)
        ensures { self.new ≡ page_changed page made_going self.old }
    {
        if let Ok(at) = place_of(self.as_slice(), page) {
            let here = self.as_slice()[at];
            self.pages.set(
                at,
                PageAt {
                    going: true,
                    ending: false,
                    ..here
                },
            );
        }
    }

    /// The page of a number is ending, where there is one.
    pub fn set_ending(&mut self, page: u32)
        ensures { self.new ≡ page_changed page made_ending self.old }
    {
        if let Ok(at) = place_of(self.as_slice(), page) {
            let here = self.as_slice()[at];
            self.pages.set(
                at,
                PageAt {
                    going: false,
                    ending: true,
                    ..here
                },
            );
        }
    }
}

// The place of the page of a number, or else the place where it would stand.
fn place_of(pages: &[PageAt], page: u32) -> Result<usize, usize>
    requires { IsRising (map page_number pages.now) }
    ensures found { MatchResult result
        (λ at. (at < length pages.now)
        × (found_by page_number pages.now page ≡ slice_get pages.now at))
        (λ at. (at ≤ length pages.now) × (found_by page_number pages.now page ≡ None)) }
    ensures without { MatchResult result
        (λ at. (without_by page_number pages.now page ≡ remove pages.now at)
        × IsRising (map page_number (remove pages.now at)))
        (λ at. without_by page_number pages.now page ≡ pages.now) }
    ensures with { MatchResult result
        (λ at. (d : OnePage) → page_number (get_or pages.now at d) ≡ page)
        (λ at. (p : OnePage) → p.page ≡ page
        → (inserted_by page_number p pages.now ≡ insert pages.now at p)
        × IsRising (map page_number (insert pages.now at p))) }
{
    pages.binary_search_by_key(&page, |here| here.page)
}
