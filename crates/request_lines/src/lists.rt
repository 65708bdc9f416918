//! Lists of things that have a text.

ghost use Rattle.std.specs.Prelude.{◌≡◌, ◌++◌, ◌==◌, if◌then◌else◌, [], ℕ, List, map, codes};
ghost use Rattle.request_lines.specs.Sent.{Puts};
ghost use Rattle.request_lines.specs.Json.{array};

use crate::page::Page;
use pcg_base::Sink;

/// What has a text of its own.
pub trait Written {
    ghost text: { Self → List ℕ };

    /// Puts the text on a page.
    fn put_on<K: Sink>(&self, page: &mut Page, out: &mut K)
        ensures { Puts (K.state out.old) (K.state out.new) page.old page.new (text self.now) };
}

/// Puts the item at this index of a list, after a comma where it isn't the first.
fn put_item<K: Sink, T: Written>(page: &mut Page, out: &mut K, index: usize, item: &T)
    ensures { Puts (K.state out.old) (K.state out.new) page.old page.new
        ((if index == 0 then [] else codes ",") ++ T.text item.now) }
{
    if index == 0 {
        item.put_on(page, out);
    } else {
        page.put(out, b",");
        item.put_on(page, out);
    }
}

/// Puts a list.
pub fn put_list<K: Sink, T: Written>(page: &mut Page, out: &mut K, list: &[T])
    ensures { Puts (K.state out.old) (K.state out.new) page.old page.new
        (array (map T.text list.now)) }
{
    page.put(out, b"[");
    for i in 0..list.len() {
        put_item(page, out, i, &list[i]);
    }
    page.put(out, b"]");
}
