//! The calls on the shared rows.
ghost use Rattle.std.specs.Prelude.{◌≡◌, ◌≢◌, ◌<◌, ◌≤◌, MatchResult, true, false, [], length, slice_index};
ghost use Rattle.graph_model.specs.Lists.{has};
ghost use Rattle.op_model.specs.declared.entry.Entry.{Entry};
ghost use Rattle.shared_rows.specs.declared.view.View.{View};
ghost use Rattle.shared_rows.specs.Known.{known, IsIdle};
ghost use Rattle.shared_rows.specs.Drafting.{IsSeen, Whole, end_of};
ghost use Rattle.shared_rows.specs.Plays.{Later, pinning, joined, published, with_lock, with_loss, with_turn, without_lock, without_turn};

use crate::image::Image;
use crate::pass::{Pass, Shared};
use pcg_base::VecWords;
use std::marker::Brand;
use std::sync::Wait;

impl Shared {
    /// The k-th word of the image.
    pub(crate) fn read(&self, pass: &mut Pass, k: u64) -> u64
        requires own { pass.old.table ≡ self.now.table }
        requires inside { k < length pass.old.view.image }
        ensures word { result ≡ slice_index pass.old.view.image k }
        ensures same { pass.new ≡ pass.old }
    {
        self.rows.read(pass, k)
    }

    /// The words that the pass saw at its last look or made by its last publish.
    pub fn image<'a>(&'a self, pass: &'a mut Pass) -> Image<'a>
        requires own { pass.old.table ≡ self.now.table }
        ensures same_reference { result.pass.ghost_name ≡ pass.entry.ghost_name }
        ensures pass { result.pass.now ≡ pass.old }
        ensures shared { result.shared.now ≡ self.now }
    {
        Image { shared: self, pass }
    }

    /// The length of the log that the pass saw last.
    fn seen_length(&self, pass: &mut Pass) -> u32
        requires own { pass.old.table ≡ self.now.table }
        requires seen { IsSeen pass.old.view }
        ensures length { result ≡ length pass.old.view.log }
        ensures same { pass.new ≡ pass.old }
    {
        log_rows::length(&mut Image { shared: self, pass })
    }

    /// Sees the log as it is, and gives its length.
    pub fn look(&self, pass: &mut Pass) -> u32
        requires own { pass.old.table ≡ self.now.table }
        ensures table { pass.new.table ≡ pass.old.table }
        ensures later { Later pass.old.view pass.old.view pass.new.view }
        ensures length { result ≡ length pass.new.view.log }
    {
        self.rows.look(pass);
        self.seen_length(pass)
    }

    /// Sees the log as it is, and gives its length. The locks that the pass holds are pinned: while
    /// they are, no other pass publishes an entry that retires a root with one of them.
    pub fn look_pinned(&self, pass: &mut Pass) -> u32
        requires own { pass.old.table ≡ self.now.table }
        ensures table { pass.new.table ≡ pass.old.table }
        ensures later { Later pass.old.view (pinning pass.old.view) pass.new.view }
        ensures length { result ≡ length pass.new.view.log }
    {
        self.rows.look_pinned(pass);
        self.seen_length(pass)
    }

    /// Publishes the entry of a whole draft, and gives the new length of the log.
    pub fn publish(&self, pass: &mut Pass) -> u32
        ghost entry: { Entry }
        requires own { pass.old.table ≡ self.now.table }
        requires fresh { pass.old.view.fresh ≡ true }
        requires whole { Whole pass.old.view (end_of pass.old.view.draft) entry }
        ensures published { pass.new ≡ known pass.old.table (published pass.old.view (end_of pass.old.view.draft) entry) }
        ensures length { result ≡ length pass.new.view.log }
    {
        self.rows.publish::<Brand>(pass);
        self.seen_length(pass)
    }

    /// Waits for the turn and takes it.
    pub fn take_turn<R: Wait>(&self, rt: &R, pass: &mut Pass)
        requires own { pass.old.table ≡ self.now.table }
        requires without { pass.old.view.turn ≡ false }
        ensures { pass.new ≡ known pass.old.table (with_turn pass.old.view) }
    {
        self.rows.take_turn(rt, pass);
    }

    /// Gives the turn back. There must be no draft that isn't published.
    pub fn give_turn(&self, pass: &mut Pass)
        requires own { pass.old.table ≡ self.now.table }
        requires turn { pass.old.view.turn ≡ true }
        requires clean { pass.old.view.draft ≡ [] }
        ensures { pass.new ≡ known pass.old.table (without_turn pass.old.view) }
    {
        self.rows.give_turn(pass);
    }

    /// Takes the lock of this number if no pass has it.
    ///
    /// # Errors
    ///
    /// The number of the pass that had the lock.
    pub fn try_lock(&self, pass: &mut Pass, number: u8) -> Result<(), u64>
        requires own { pass.old.table ≡ self.now.table }
        requires low { number < 64 }
        requires without { has pass.old.view.held number ≡ false }
        ensures { MatchResult result (λ _. pass.new ≡ known pass.old.table (with_lock pass.old.view number)) (λ met. (met ≢ 0) × (met ≢ pass.old.view.number) × (pass.new ≡ known pass.old.table (with_loss pass.old.view met))) }
    {
        self.rows.try_lock(pass, number)
    }

    /// Gives the lock of this number back. Nothing is pinned any more.
    pub fn free_lock(&self, pass: &mut Pass, number: u8)
        requires own { pass.old.table ≡ self.now.table }
        requires low { number < 64 }
        requires held { has pass.old.view.held number ≡ true }
        requires without { pass.old.view.turn ≡ false }
        ensures { pass.new ≡ known pass.old.table (without_lock pass.old.view number) }
    {
        self.rows.free_lock(pass, number);
    }

    /// Puts what another pass knows to this one's.
    pub fn gather(&self, into: &mut Pass, other: Pass)
        requires own { (into.old.table ≡ self.now.table) × (other.table ≡ self.now.table) }
        requires idle { IsIdle into.old.view × IsIdle other.view }
        ensures { into.new ≡ known into.old.table (joined into.old.view other.view) }
    {
        self.rows.gather(into, other);
    }

    /// Ends the rows. Gives the words of the log as a last look sees it. It takes no memory.
    pub fn close(self, pass: Pass) -> VecWords
        requires own { pass.table ≡ self.table }
        requires idle { IsIdle pass.view }
        ensures { (w : View) × Later pass.view pass.view w × (result.words ≡ w.image) }
    {
        let Shared { rows, mut kept } = self;
        let mut pass = pass;
        rows.look(&mut pass);
        rows.copy_image(&mut pass, &mut kept);
        kept
    }
}
