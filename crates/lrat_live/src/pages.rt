// A count for each literal's index, in pages. A line may name a literal of the greatest variable,
// and one table up to that took a second and a gigabyte to fill; so a page has places only once one
// of its literals is counted, and up to that one.
ghost use Rattle.std.specs.Prelude.{◌≡◌, ℕ, ◌+◌, ◌-◌, ◌<◌, ◌==◌, length, map, OnOk};
ghost use Rattle.std.specs.Prelude.{slice_index};
ghost use Rattle.cnf.specs.Numbers.{one_if};
ghost use Rattle.lrat_live.specs.Pages.{count_in};
ghost use Rattle.lrat_live.specs.declared.pages.TheConstants.{PAGE};

use std::alloc::{AllocError, Global};
use std::marker::Model;

/// How many literals have their counts in one page.
const PAGE: usize = 4096;

/// A count for each place, 0 at first.
#[derive(Drop)]
pub(crate) struct Counts {
    /// Page p has the counts of the `PAGE` places from p * `PAGE` on, up to the last of them that
    /// was ever raised. At most 2^16 pages, since there are 2^28 places.
    pages: Vec<Vec<u32>>,
}

impl Model for Counts {
    ghost use Rattle.std.specs.Prelude.{ℕ, List, map};

    ghost Value = { List (List ℕ) };

    ghost view = { λ c. map (λ page. page.items) c.pages.items };
}

/// The count at a place of a page.
fn count_at(page: &[u32], place: usize) -> u32
    ensures { result ≡ slice_index page.now place }
{
    if place < page.len() { page[place] } else { 0 }
}

/// Lets the page reach a place.
fn reach(page: &mut Vec<u32>, place: usize) -> Result<(), AllocError>
    requires { place < PAGE }
    ensures counts { OnOk result
        ((p : ℕ) → slice_index page.new.items p ≡ slice_index page.old.items p) }
    ensures within { OnOk result (place < length page.new.items) }
{
    if place < page.len() {
        return Ok(());
    }
    page.resize(place + 1, 0)?;
    Ok(())
}

/// One more at a place of a page. An AllocError comes where memory was refused, or where the count
/// would be 2^32.
fn raise_one(page: &mut Vec<u32>, place: usize) -> Result<(), AllocError>
    requires { place < PAGE }
    ensures { OnOk result ((p : ℕ)
        → slice_index page.new.items p ≡ slice_index page.old.items p + one_if (p == place)) }
{
    reach(page, place)?;
    let count = page[place];
    if count == u32::MAX {
        return Err(AllocError);
    }
    page[place] = count + 1;
    Ok(())
}

/// One less at a place of a page, where it is not 0.
fn lower_one(page: &mut Vec<u32>, place: usize)
    ensures { (p : ℕ)
        → slice_index page.new.items p ≡ slice_index page.old.items p - one_if (p == place) }
{
    if place >= page.len() {
        return;
    }
    let count = page[place];
    if count == 0 {
        return;
    }
    page[place] = count - 1;
}

/// Lets there be a page of this number.
fn reach_page(pages: &mut Vec<Vec<u32>>, page: usize) -> Result<(), AllocError>
    ensures counts { OnOk result ((p : ℕ)
        → count_in (map (λ x. x.items) pages.new.items) p
        ≡ count_in (map (λ x. x.items) pages.old.items) p) }
    ensures within { OnOk result (page < length pages.new.items) }
{
    while pages.len() <= page {
        pages.push(Vec::new(*pages.allocator()))?;
    }
    Ok(())
}

impl Counts {
    /// None is counted.
    pub(crate) fn new(alloc: Global) -> Self
        ensures { (p : ℕ) → count_in result p ≡ 0 }
    {
        Counts {
            pages: Vec::new(alloc),
        }
    }

    /// None is counted any more.
    pub(crate) fn clear(&mut self)
        ensures { (p : ℕ) → count_in self.new p ≡ 0 }
    {
        self.pages.clear();
    }

    /// The count at a place.
    pub(crate) fn get(&self, place: usize) -> u32
        ensures { result ≡ count_in self.now place }
    {
        let page = place / PAGE;
        if page >= self.pages.len() {
            return 0;
        }
        count_at(&self.pages[page], place % PAGE)
    }

    /// One more at a place. An AllocError comes where memory was refused, or where the count would
    /// be 2^32.
    pub(crate) fn raise(&mut self, place: usize) -> Result<(), AllocError>
        ensures { OnOk result ((p : ℕ)
            → count_in self.new p ≡ count_in self.old p + one_if (p == place)) }
    {
        let page = place / PAGE;
        reach_page(&mut self.pages, page)?;
        raise_one(&mut self.pages[page], place % PAGE)
    }

    /// One less at a place, where it is not 0.
    pub(crate) fn lower(&mut self, place: usize)
        ensures { (p : ℕ)
            → count_in self.new p ≡ count_in self.old p - one_if (p == place) }
    {
        let page = place / PAGE;
        if page >= self.pages.len() {
            return;
        }
        lower_one(&mut self.pages[page], place % PAGE);
    }
}
