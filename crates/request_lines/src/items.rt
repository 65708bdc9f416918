//! The texts of what stands in lists.

ghost use Rattle.std.specs.Prelude.{◌≡◌};
ghost use Rattle.request_lines.specs.Sent.{Puts};
ghost use Rattle.request_lines.specs.Json.{id_text, truth};
ghost use Rattle.request_lines.specs.Items.{asked_pair_text, carry_text, changed_text, kind_name, pair_text, summary_text};

use crate::lists::Written;
use crate::page::Page;
use node_ids::NodeId;
use op_model::{AskedPair, Carry, Changed, Kind, Pair, Summary};
use pcg_base::Sink;

impl Written for NodeId {
    ghost text = { id_text };

    fn put_on<K: Sink>(&self, page: &mut Page, out: &mut K) {
        page.put_id(out, b"", *self);
    }
}

impl Written for Pair {
    ghost text = { pair_text };

    fn put_on<K: Sink>(&self, page: &mut Page, out: &mut K) {
        page.put_id(out, b"[", self.a);
        page.put_id(out, b",", self.b);
        page.put(out, b"]");
    }
}

impl Written for AskedPair {
    ghost text = { asked_pair_text };

    fn put_on<K: Sink>(&self, page: &mut Page, out: &mut K) {
        page.put_id(out, b"[", self.a);
        page.put_id(out, b",", self.b);
        page.put(out, b"]");
    }
}

/// Whether a pair is active.
fn truth_of(active: bool) -> &'static [u8]
    ensures { result.now ≡ truth active }
{
    if active { b"true" } else { b"false" }
}

impl Written for Changed {
    ghost text = { changed_text };

    fn put_on<K: Sink>(&self, page: &mut Page, out: &mut K) {
        page.put_id(out, b"[", self.pair.a);
        page.put_id(out, b",", self.pair.b);
        page.put(out, b",");
        page.put(out, truth_of(self.active));
        page.put(out, b"]");
    }
}

impl Written for Carry {
    ghost text = { carry_text };

    fn put_on<K: Sink>(&self, page: &mut Page, out: &mut K) {
        page.put_id(out, b"[", self.from);
        page.put_id(out, b",", self.to);
        page.put_number(out, b",", self.amount);
        page.put(out, b"]");
    }
}

/// The name of a kind of entry.
#[tactic(auto, unfolding(crate::specs::Items::kind_name))]
fn name_of(kind: Kind) -> &'static [u8]
    ensures { result.now ≡ kind_name kind }
{
    match kind {
        Kind::Ingest => b"ingest",
        Kind::Merge => b"merge",
        Kind::Split => b"split",
        Kind::Undo => b"undo",
        Kind::Redo => b"redo",
    }
}

impl Written for Summary {
    ghost text = { summary_text };

    fn put_on<K: Sink>(&self, page: &mut Page, out: &mut K) {
        page.put_number(out, b"{\"at\":", self.at);
        page.put_word(out, b",\"do\":", name_of(self.kind));
        page.put_number(out, b",\"op\":", self.op as u64);
        page.put(out, b"}");
    }
}
