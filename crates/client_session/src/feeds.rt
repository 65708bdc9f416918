//! Line feeds in bytes.

ghost use Rattle.std.specs.Prelude.{◌≤◌, take, length, IfSome, IfNone};
ghost use Rattle.client_session.specs.Feeds.{NoFeed, FeedAt};

/// The index of the first line feed of a text, of which the first `looked` bytes have none.
#[tactic(auto, using(crate::proofs::Feeding::no_feed_next, crate::proofs::Feeding::feed_here, crate::proofs::Feeding::no_feed_all))]
pub(crate) fn first_feed(text: &[u8], looked: usize) -> Option<usize>
    requires within { looked ≤ length text.now }
    requires none { NoFeed (take looked text.now) }
    ensures some { IfSome result (λ at. FeedAt at text.now) }
    ensures none { IfNone result (NoFeed text.now) }
{
    for at in looked..text.len() {
        if text[at] == b'\n' {
            return Some(at);
        }
    }
    None
}
