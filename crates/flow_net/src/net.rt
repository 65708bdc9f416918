//! Nets, and the test whether links are those of a net.

ghost use Rattle.std.specs.Prelude.{◌≡◌, ◌<◌, ◌-◌, length, map, IsTrue, ◌↔◌, ◌&&◌, ◌||◌};
ghost use Rattle.flow_net.specs.Net.{IsNet, NetView, wire_of};
ghost use Rattle.flow_net.specs.Tests.{fits, follows, before, same_pair, is_new};
ghost use Rattle.graph_model.specs.Wires.{wire};
ghost use Rattle.graph_model.specs.Cuts.{each_below};

use crate::Link;
use std::marker::Model;

/// A net: vertices from 0 on, and links between two different ones of them, no pair twice.
#[derive(Drop)]
pub struct Net {
    n: u32,
    links: Vec<Link>,
}

impl Model for Net {
    ghost use Rattle.flow_net.specs.Net.{NetView, IsNet};

    ghost Value = { NetView };

    ghost view = { λ s. record { size = s.n; links = s.links.items } };

    ghost invariant = { λ s. IsNet (record { size = s.n; links = s.links.items }) };
}

impl Net {
    /// A net of `n` vertices with these links, which must be those of a net; [`is_net`] is the test.
    pub fn new(n: u32, links: Vec<Link>) -> Self
        requires { IsNet (record { size = n; links = links.items }) }
        ensures { result ≡ record { size = n; links = links.items } }
    {
        Net { n, links }
    }

    /// The number of its vertices.
    pub fn size(&self) -> u32
        ensures size { result ≡ self.now.size }
        ensures sound { IsNet self.now }
    {
        self.n
    }

    /// Its links; a link's number is its place here, from 0.
    pub fn links(&self) -> &[Link]
        ensures links { result.now ≡ self.now.links }
        ensures sound { IsNet self.now }
    {
        self.links.as_slice()
    }
}

/// Whether these are the links of a net of `n` vertices: all ends below `n`, the two ends of each
/// different, and no pair of vertices twice, whichever end comes first.
///
/// It takes no memory. One pass where the pairs ascend by lesser end and then greater end; in other
/// orders the time grows with the square of the number of links.
pub fn is_net(n: u32, links: &[Link]) -> bool
    ensures { IsTrue result ↔ IsNet (record { size = n; links = links.now }) }
{
    passes(n, links)
}

// the tests of it, the one that is fast before the one that is slow
fn passes(n: u32, links: &[Link]) -> bool
    ensures { result ≡ (each_below (fits n (map wire_of links.now)) (length links.now) && (each_below (follows (map wire_of links.now)) (length links.now) || each_below (is_new (map wire_of links.now)) (length links.now))) }
{
    all_fit(n, links) && (all_follow(links) || all_new(links))
}

// whether the ends of link k are below n, and different
fn is_fit(n: u32, links: &[Link], k: usize) -> bool
    requires { k < length links.now }
    ensures { result ≡ fits n (map wire_of links.now) k }
{
    links[k].a < n && links[k].b < n && !(links[k].a == links[k].b)
}

// whether the ends of each link are
fn all_fit(n: u32, links: &[Link]) -> bool
    ensures { result ≡ each_below (fits n (map wire_of links.now)) (length links.now) }
{
    for k in 0..links.len() {
        if !is_fit(n, links, k) {
            return false;
        }
    }
    true
}

// whether one pair, the lesser end first, is before the other
fn is_before(one: &Link, other: &Link) -> bool
    ensures { result ≡ before (wire_of one.now) (wire_of other.now) }
{
    let lesser = one.a.min(one.b);
    let least = other.a.min(other.b);
    lesser < least || (lesser == least && one.a.max(one.b) < other.a.max(other.b))
}

// whether link k's pair is after that of the link before it
fn is_following(links: &[Link], k: usize) -> bool
    requires { k < length links.now }
    ensures { result ≡ follows (map wire_of links.now) k }
{
    k == 0 || is_before(&links[k - 1], &links[k])
}

// whether each link's pair is
fn all_follow(links: &[Link]) -> bool
    ensures { result ≡ each_below (follows (map wire_of links.now)) (length links.now) }
{
    for k in 0..links.len() {
        if !is_following(links, k) {
            return false;
        }
    }
    true
}

// whether two links are between one pair of vertices
fn is_same_pair(links: &[Link], j: usize, k: usize) -> bool
    requires one { j < length links.now }
    requires other { k < length links.now }
    ensures { result ≡ same_pair (wire (map wire_of links.now) j) (wire (map wire_of links.now) k) }
{
    (links[j].a == links[k].a && links[j].b == links[k].b)
        || (links[j].a == links[k].b && links[j].b == links[k].a)
}

// whether link k's pair is that of no link before it
fn is_new_at(links: &[Link], k: usize) -> bool
    requires { k < length links.now }
    ensures { result ≡ is_new (map wire_of links.now) k }
{
    for j in 0..k {
        if is_same_pair(links, j, k) {
            return false;
        }
    }
    true
}

// whether each link's pair is
fn all_new(links: &[Link]) -> bool
    ensures { result ≡ each_below (is_new (map wire_of links.now)) (length links.now) }
{
    for k in 0..links.len() {
        if !is_new_at(links, k) {
            return false;
        }
    }
    true
}
