//! A page gathered from rows that are offered one by one.
ghost use Rattle.std.specs.Prelude.{◌≡◌, ◌+◌, ◌*◌, ◌<◌, ◌≤◌, [], ◌∷◌, ◌++◌, List, length, map, drop, take, IfOk, IfErr, OnOk, OnErr};
ghost use Rattle.std.specs.List.Sorted.{IsSorted, IsStable};
ghost use Rattle.row_cells.specs.Sorted.{sorted};
ghost use Rattle.hits_page.specs.Hits as spec;
ghost use Rattle.hits_page.specs.Hits.{hit_cmp};
ghost use Rattle.hits_page.specs.Limits.{deepest};
ghost use Rattle.hits_page.specs.Pages as pages;
ghost use Rattle.hits_page.specs.Pages.{Holds, IsPageCause, Stands, hit_offered, page_of};
ghost use Rattle.hits_page.specs.declared.hits.Hit.{Hit};

use crate::counting::one_more;
use crate::hits::{Hit, Offer, Page, Picked, sort_values};
use crate::limits::DEEPEST;
use crate::order::{hit_order, is_past};
use crate::sort_keys::SortKey;
use edge_face::{NoMemory, Text};
use row_cells::{Row, Schema, copy_row};
use sqlite_items::Items;
use std::alloc::{AllocError, Global};
use thiserror::Error;

/// Why there is no page, or no order of one.
#[derive(Debug, Drop, Error)]
pub enum PageError {
    /// The last hit of the page, or 2^64 - 1 where that is further.
    #[error("the page ends at hit {asked}, which is over {}", DEEPEST)]
    WindowTooLarge { asked: u64 },
    #[error("no sort by the field {}", path.as_str())]
    BadSort { path: Text },
    #[error("the sort has no shape that is known")]
    Shape,
    #[error("out of memory")]
    NoMemory,
}

/// The rows of a page among those offered so far, and how many were offered.
#[derive(Drop)]
pub struct Pager {
    keys: Items<SortKey>,
    from: usize,
    size: usize,
    /// `from + size`
    limit: usize,
    total: u64,
    /// The hits that may be among the first, at most twice as many as the limit.
    held: Vec<Hit>,
    /// Whether those in front, up to the limit, stand in order, so that the last of them tells which rows needn't be kept.
    has_mark: bool,
}

/// Puts hits in order. Those that nothing tells apart stay as they stood.
fn sort_hits(keys: &[SortKey], hits: &mut Vec<Hit>) -> Result<(), AllocError>
    ensures sorted { OnOk result (IsSorted (hit_cmp keys.now) hits.new.items) }
    ensures stable { IsStable (hit_cmp keys.now) hits.old.items hits.new.items }
    ensures err { OnErr result (hits.new.items ≡ hits.old.items) }
{
    hits.sort_by(|a, b| hit_order(keys, a, b))
}

/// Puts hits in order, and lets go what is behind the first ones.
fn settle(keys: &[SortKey], hits: &mut Vec<Hit>, limit: usize) -> Result<(), NoMemory>
    ensures cut { OnOk result (hits.new.items ≡ take limit (sorted (hit_cmp keys.now) hits.old.items)) }
    ensures err { OnErr result (hits.new.items ≡ hits.old.items) }
{
    sort_hits(keys, hits)?;
    hits.truncate(limit);
    Ok(())
}

/// Puts a row behind the hits.
fn put_row(
    alloc: Global,
    keys: &[SortKey],
    hits: &mut Vec<Hit>,
    offer: Offer<'_>,
) -> Result<(), NoMemory>
    ensures ok { OnOk result (hits.new.items ≡ hits.old.items ++ hit_offered keys.now offer.entry ∷ []) }
    ensures err { OnErr result (hits.new.items ≡ hits.old.items) }
{
    let sort = sort_values(alloc, keys, offer.schema, offer.row)?;
    let row = copy_row(alloc, offer.row)?;
    let picked = Picked {
        index: offer.index,
        row,
        sort,
    };
    hits.push(Hit {
        start: offer.start,
        picked,
    })?;
    Ok(())
}

/// The rows of the hits behind the first ones.
#[tactic(auto, using(crate::proofs::Cutting::drop_one))]
fn cut(alloc: Global, hits: Vec<Hit>, from: usize) -> Result<Items<Picked>, NoMemory>
    ensures { IfOk result (λ rows. rows ≡ map (λ h. h.picked) (drop from hits.items)) }
{
    let mut rows = Items::new(alloc);
    let mut left = from;
    for hit in hits {
        if left == 0 {
            rows.push(hit.picked)?;
        } else {
            left -= 1;
        }
    }
    Ok(rows)
}

/// Whether a page of so many hits from one on ends behind hit `DEEPEST`: `Pager::new` refuses exactly such a page as too large.
pub fn is_too_deep(from: u64, size: u64) -> bool
    ensures { result ≡ pages.is_too_deep from size }
{
    DEEPEST < from || DEEPEST - from < size
}

impl Pager {
    /// A pager for the hits from one on, and so many, to which nothing was offered. It is refused exactly where the page ends behind
    /// hit `DEEPEST`.
    pub fn new(
        alloc: Global,
        sort: Items<SortKey>,
        from: u64,
        size: u64,
    ) -> Result<Pager, PageError>
        ensures stands { IfOk result (λ pager. Stands pager []) }
        ensures asked { IfOk result (λ pager. (pager.keys ≡ sort) × (pager.from ≡ from) × (pager.size ≡ size)) }
        ensures few { IfOk result (λ pager. from + size ≤ deepest) }
        ensures err { IfErr result (IsPageCause (from + size)) }
    {
        let asked = from.saturating_add(size);
        if DEEPEST < asked {
            return Err(PageError::WindowTooLarge { asked });
        }
        Ok(Pager {
            keys: sort,
            from: from as usize,
            size: size as usize,
            limit: asked as usize,
            total: 0,
            held: Vec::new(alloc),
            has_mark: false,
        })
    }

    /// Where twice as many hits are held as are wanted, puts them in order and lets go what is behind the first ones.
    fn make_room(&mut self) -> Result<(), NoMemory>
        ensures stands { (offered : List Hit) → Stands self.old offered → Stands self.new offered }
        ensures asked { (self.new.keys ≡ self.old.keys) × (self.new.from ≡ self.old.from) × (self.new.size ≡ self.old.size) }
        ensures same { (self.new.limit ≡ self.old.limit) × (self.new.total ≡ self.old.total) }
        ensures room { OnOk result (0 < self.old.limit → length self.new.held.items < 2 * self.old.limit) }
    {
        if self.held.len() / 2 < self.limit {
            return Ok(());
        }
        self.has_mark = false;
        settle(self.keys.as_slice(), &mut self.held, self.limit)?;
        self.has_mark = true;
        Ok(())
    }

    /// Keeps a row where it may be among the first ones. Another one costs a comparison, and nothing of it is copied.
    fn keep(&mut self, alloc: Global, offer: Offer<'_>) -> Result<(), NoMemory>
        ensures taken { OnOk result ((offered : List Hit) → Stands self.old offered
            → Holds self.new.keys self.new.limit self.new.has_mark self.new.held.items (offered ++ hit_offered self.old.keys offer.entry ∷ [])) }
        ensures few { OnOk result (length self.old.held.items ≤ 2 * self.old.limit → length self.new.held.items ≤ 2 * self.new.limit) }
        ensures kept { OnErr result ((offered : List Hit) → Stands self.old offered → Stands self.new offered) }
        ensures asked { (self.new.keys ≡ self.old.keys) × (self.new.from ≡ self.old.from) × (self.new.size ≡ self.old.size) }
        ensures same { (self.new.limit ≡ self.old.limit) × (self.new.total ≡ self.old.total) }
    {
        if is_past(
            self.keys.as_slice(),
            offer,
            self.held.as_slice(),
            self.limit,
            self.has_mark,
        ) {
            return Ok(());
        }
        self.make_room()?;
        put_row(alloc, self.keys.as_slice(), &mut self.held, offer)?;
        Ok(())
    }

    /// Offers a row. It fits a schema with the fields that the sort was read with. After a refusal nothing was offered.
    pub fn offer(
        &mut self,
        alloc: Global,
        index: u32,
        start: i64,
        schema: &Schema,
        row: &Row,
    ) -> Result<(), NoMemory>
        ensures taken { OnOk result ((offered : List Hit) → Stands self.old offered
            → Stands self.new (offered ++ spec.hit_of self.old.keys schema.now.fields index start row.now ∷ [])) }
        ensures kept { OnErr result ((offered : List Hit) → Stands self.old offered → Stands self.new offered) }
        ensures asked { (self.new.keys ≡ self.old.keys) × (self.new.from ≡ self.old.from) × (self.new.size ≡ self.old.size) }
    {
        let total = one_more(self.total)?;
        let offer = Offer {
            index,
            start,
            schema,
            row,
        };
        self.keep(alloc, offer)?;
        self.total = total;
        Ok(())
    }

    /// How many rows were offered, and those of the page in order.
    pub fn finish(self, alloc: Global) -> Result<Page, NoMemory>
        ensures { IfOk result (λ page. (offered : List Hit) → Stands self offered → page ≡ page_of self.keys self.from self.size offered) }
    {
        let Pager {
            keys,
            from,
            limit,
            total,
            held,
            ..
        } = self;
        let mut held = held;
        settle(keys.as_slice(), &mut held, limit)?;
        let rows = cut(alloc, held, from)?;
        Ok(Page { total, rows })
    }
}
