//! The records of an entry, stored word by word.
ghost use Rattle.std.specs.Prelude.{◌≡◌, ℕ, ◌+◌, ◌<◌, ◌≤◌, ◌*◌, ◌^◌, true, [], length, map, slice_index, None};
ghost use Rattle.std.specs.List.{AllByRecursion, concat};
ghost use Rattle.op_model.specs.declared.entry.Entry.{Entry};
ghost use Rattle.record_rows.specs.Images.{is_pointer};
ghost use Rattle.row_words.specs.Drafts.{IsPointerBelow, store_of};
ghost use Rattle.shared_rows.specs.Known.{known};
ghost use Rattle.shared_rows.specs.Board.{stored_at};
ghost use Rattle.shared_rows.specs.Drafting.{Adds, Fills, Whole, WordsDiffer, end_of, with_draft, with_links, with_words};
ghost use Rattle.shared_rows.specs.Plays.{with_store};

use crate::pass::{Pass, Rows, Shared};
use row_words::{Draft, DraftLink};

impl Shared {
    /// Stores the records of an entry and fills the pointers that lead to them. No other pass sees
    /// any of it until it is published.
    pub fn draft(&self, pass: &mut Pass, draft: &Draft)
        requires own { pass.old.table ≡ self.now.table }
        requires fresh { pass.old.view.fresh ≡ true }
        requires clean { pass.old.view.draft ≡ [] }
        requires adds { (e : Entry) × Adds pass.old.view draft.now e }
        ensures drafted { pass.new ≡ known pass.old.table (with_draft pass.old.view draft.now) }
        ensures whole { (e : Entry) → Adds pass.old.view draft.now e → Whole pass.new.view (end_of pass.new.view.draft) e }
    {
        self.rows.draft(pass, draft);
    }
}

/// The row word of a pointer, and where it is to lead.
fn store_at(link: &DraftLink) -> (u64, u64)
    ensures { (result.0 ≡ 8 * link.now.from + link.now.k) × (result.1 ≡ link.now.to) }
{
    (8 * link.from.0 as u64 + link.k as u64, link.to.0 as u64)
}

impl Rows {
    fn draft(&self, pass: &mut Pass, draft: &Draft)
        requires own { pass.old.table ≡ self.now.table }
        requires fresh { pass.old.view.fresh ≡ true }
        requires clean { pass.old.view.draft ≡ [] }
        requires adds { (e : Entry) × Adds pass.old.view draft.now e }
        ensures drafted { pass.new ≡ known pass.old.table (with_draft pass.old.view draft.now) }
        ensures whole { (e : Entry) → Adds pass.old.view draft.now e → Whole pass.new.view (end_of pass.new.view.draft) e }
    {
        let base = self.image_len(pass);
        self.store_rows(pass, base, draft);
        self.store_links(pass, draft);
    }

    /// Stores the new records, from the row word `base` on.
    fn store_rows(&self, pass: &mut Pass, base: u64, draft: &Draft)
        requires own { pass.old.table ≡ self.now.table }
        requires fresh { pass.old.view.fresh ≡ true }
        requires base { base ≡ 8 * pass.old.view.tail }
        requires room { pass.old.view.tail + length draft.now.rows ≤ pass.old.view.dataset.capacity }
        requires small { pass.old.view.dataset.capacity < 2 ^ 32 }
        ensures put { pass.new ≡ known pass.old.table (with_words pass.old.view base (concat draft.now.rows)) }
        ensures long { length (concat draft.now.rows) ≡ 8 * length draft.now.rows }
    {
        for k in 0..draft.rows() {
            self.store_row(pass, base + 8 * k as u64, draft.row(k));
        }
    }

    /// Stores one record, from the row word `at` on.
    fn store_row(&self, pass: &mut Pass, at: u64, row: [u64; 8])
        requires own { pass.old.table ≡ self.now.table }
        requires fresh { pass.old.view.fresh ≡ true }
        requires above { 8 * pass.old.view.tail ≤ at }
        requires inside { at + 8 ≤ 8 * pass.old.view.dataset.capacity }
        requires small { pass.old.view.dataset.capacity < 2 ^ 32 }
        ensures put { pass.new ≡ known pass.old.table (with_words pass.old.view at row) }
        ensures eight { length row ≡ 8 }
    {
        for j in 0..8 {
            self.store(pass, at + j as u64, row[j]);
        }
    }

    /// Fills the pointers.
    fn store_links(&self, pass: &mut Pass, draft: &Draft)
        requires own { pass.old.table ≡ self.now.table }
        requires fresh { pass.old.view.fresh ≡ true }
        requires tail { draft.now.tail ≡ pass.old.view.tail }
        requires within { pass.old.view.tail ≤ pass.old.view.dataset.capacity }
        requires fills { AllByRecursion (λ l. Fills pass.old.view (store_of l)) draft.now.links }
        requires differ { WordsDiffer (map store_of draft.now.links) }
        requires clean { (k : ℕ) → k < 8 * pass.old.view.tail → stored_at k pass.old.view.draft ≡ None }
        ensures put { pass.new ≡ known pass.old.table (with_links pass.old.view draft.now.links) }
        ensures pointers { AllByRecursion (IsPointerBelow draft.now.tail) draft.now.links }
    {
        for k in 0..draft.links() {
            self.store_link(pass, draft.link(k));
        }
    }

    /// Fills one pointer.
    fn store_link(&self, pass: &mut Pass, link: DraftLink)
        requires own { pass.old.table ≡ self.now.table }
        requires fresh { pass.old.view.fresh ≡ true }
        requires below { link.from < pass.old.view.tail }
        requires pointer { (4 ≤ link.k) × (link.k < 8) }
        requires within { pass.old.view.tail ≤ pass.old.view.dataset.capacity }
        requires fills { Fills pass.old.view (store_of link) }
        requires clean { stored_at (8 * link.from + link.k) pass.old.view.draft ≡ None }
        ensures put { pass.new ≡ known pass.old.table (with_store pass.old.view (8 * link.from + link.k) link.to) }
    {
        let (word, value) = store_at(&link);
        self.fill(pass, word, value);
    }

    /// Fills the pointer at this row word.
    #[tactic(auto, using(crate::proofs::Filling::fill_may))]
    fn fill(&self, pass: &mut Pass, word: u64, value: u64)
        requires own { pass.old.table ≡ self.now.table }
        requires fresh { pass.old.view.fresh ≡ true }
        requires below { word < 8 * pass.old.view.tail }
        requires pointer { is_pointer word ≡ true }
        requires within { pass.old.view.tail ≤ pass.old.view.dataset.capacity }
        requires fills { (slice_index pass.old.view.image word ≡ 0) × (pass.old.view.tail ≤ value) }
        requires clean { stored_at word pass.old.view.draft ≡ None }
        ensures put { pass.new ≡ known pass.old.table (with_store pass.old.view word value) }
    {
        self.store(pass, word, value);
    }
}
