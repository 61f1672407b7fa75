ghost use Rattle.std.specs.Prelude.{◌≡◌, ◌<◌, ◌≤◌, ℕ, [], length, None, Some, OnOk, nat_eq, if◌then◌else◌};
ghost use Rattle.witness_graph.specs.private.Paging.{page_size, page_at, mark_at, place_on};

use std::alloc::Global;
use std::marker::Model;
use wpds_base::OutOfMemory;

// How many numbers share a page.
const PAGE: u64 = 1024;

// The places of the numbers of a page. It is empty where none of them has a place.
#[derive(Drop)]
struct Page {
    marks: Vec<Option<u64>>,
}

impl Model for Page {
    ghost use Rattle.std.specs.Prelude.{ℕ, List, Option};

    ghost Value = { List (Option ℕ) };

    ghost view = { λ p. p.marks.items };
}

impl Page {
    // No marks. It takes no memory.
    fn new(alloc: Global) -> Page
        ensures { result ≡ [] }
    {
        Page {
            marks: Vec::new(alloc),
        }
    }

    // The mark in a slot. Past the marks there is none.
    fn mark(&self, slot: u64) -> Option<u64>
        ensures { result ≡ mark_at self.now slot }
    {
        match self.marks.get(slot as usize) {
            Some(mark) => *mark,
            None => None,
        }
    }

    // Makes room for the marks of a page, unless it is there.
    fn open(&mut self) -> Result<(), OutOfMemory>
        ensures same { (i : ℕ) → mark_at self.new i ≡ mark_at self.old i }
        ensures made { OnOk result (page_size ≤ length self.new) }
    {
        let count = PAGE as usize;
        if self.marks.len() < count {
            self.marks.resize(count, None)?;
        }
        Ok(())
    }

    // Puts a place into a slot.
    fn put(&mut self, slot: u64, place: u64) -> Result<(), OutOfMemory>
        requires { slot < page_size }
        ensures { OnOk result ((i : ℕ) → mark_at self.new i
            ≡ if nat_eq slot i then Some place else mark_at self.old i) }
    {
        self.open()?;
        self.marks[slot as usize] = Some(place);
        Ok(())
    }
}

// Makes pages up to one, each new one empty.
fn extend_to(alloc: Global, pages: &mut Vec<Page>, page: usize) -> Result<(), OutOfMemory>
    ensures same { (p : ℕ) → page_at pages.new.items p ≡ page_at pages.old.items p }
    ensures made { OnOk result (page < length pages.new.items) }
{
    while pages.len() <= page {
        pages.push(Page::new(alloc))?;
    }
    Ok(())
}

/// The places of numbers, on pages. A page takes memory once one of its numbers has a place.
#[derive(Drop)]
pub(crate) struct Places {
    pages: Vec<Page>,
}

impl Model for Places {
    ghost use Rattle.std.specs.Prelude.{ℕ, List, Option};

    ghost Value = { List (List (Option ℕ)) };

    ghost view = { λ p. p.pages.items };
}

impl Places {
    /// No places. It takes no memory.
    pub(crate) fn new(alloc: Global) -> Places
        ensures { (k : ℕ) → place_on result k ≡ None }
    {
        Places {
            pages: Vec::new(alloc),
        }
    }

    /// The place of a number, if it has one.
    pub(crate) fn get(&self, k: u64) -> Option<u64>
        ensures { result ≡ place_on self.now k }
    {
        match self.pages.get((k / PAGE) as usize) {
            Some(page) => page.mark(k % PAGE),
            None => None,
        }
    }

    /// Gives a number this place, and leaves those of all others.
    pub(crate) fn insert(&mut self, alloc: Global, k: u64, place: u64) -> Result<(), OutOfMemory>
        ensures { OnOk result ((j : ℕ) → place_on self.new j
            ≡ if nat_eq k j then Some place else place_on self.old j) }
    {
        let page = (k / PAGE) as usize;
        extend_to(alloc, &mut self.pages, page)?;
        self.pages[page].put(k % PAGE, place)
    }
}
