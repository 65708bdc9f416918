//! Times a least cut on a generated net, which separates its first vertex from its last.
//!
//!     bench_cut grid NX NY NZ SEED
//!     bench_cut random VERTICES LINKS SEED
//!
//! It prints one line, `vertices V links M total W milliseconds T`: the net's size, the weight of the cut,
//! and the least time of five cuts, in whole milliseconds. The nets are those of `nets`. A net has from 2 to
//! 1,000,000 vertices and at most 500,000 links. Status 1: the words are of neither form; 5: memory ran out
//! or the clock failed.
//!
//! The promise: it never panics. Nothing is promised of what it prints.
#![tactic(auto)]

ghost use Rattle.bench_cut.specs.Wishes.{IsWish};

mod nets;
mod words;

use flow_net::{Link, Net, is_net};
use min_cut::least_cut;
use nets::{grid, random};
use std::alloc::Global;
use std::process::ExitCode;
use std::rt::Clock;
use std::time::Instant;
use words::{Wish, read_wish};

/// What a run found.
#[derive(Drop)]
struct Timed {
    /// The number of links.
    links: usize,
    /// The weight of the cut.
    total: u64,
    /// The least time of five cuts, in milliseconds.
    millis: u128,
}

/// The links of the net that the words wish for.
fn links_of(alloc: Global, wish: &Wish) -> Option<Vec<Link>>
    requires { IsWish wish.now }
{
    match wish {
        Wish::Grid { x, y, z, seed } => grid(alloc, *x, *y, *z, *seed),
        Wish::Random {
            vertices,
            links,
            seed,
        } => random(alloc, *vertices, *links, *seed),
    }
}

/// One cut: its weight and its time.
fn cut_once<R: Clock>(rt: &R, alloc: Global, net: &Net) -> Option<(u64, u128)> {
    let last = net.size().checked_sub(1)?;
    if last == 0 || net.links().len() > 500000 {
        return None;
    }
    let start = Instant::now(rt).ok()?;
    let found = least_cut(alloc, net, &[0], &[last]).ok()?;
    let time = start.elapsed(rt).ok()?;
    Some((found.total, time.as_millis()))
}

/// The least time of five cuts.
fn best_of_five<R: Clock>(rt: &R, alloc: Global, net: &Net) -> Option<Timed> {
    let (total, first) = cut_once(rt, alloc, net)?;
    let mut millis = first;
    for _ in 0..4 {
        let (_, more) = cut_once(rt, alloc, net)?;
        millis = millis.min(more);
    }
    Some(Timed {
        links: net.links().len(),
        total,
        millis,
    })
}

fn main(rt: HostRuntime) -> ExitCode {
    let alloc = rt.alloc();
    let Some(wish) = read_wish(&rt) else {
        let _ = println!(rt; "bench_cut: grid NX NY NZ SEED, or random VERTICES LINKS SEED");
        return ExitCode::from(1);
    };
    let vertices = wish.vertices();
    let Some(links) = links_of(alloc, &wish) else {
        return ExitCode::from(5);
    };
    if !is_net(vertices, links.as_slice()) {
        return ExitCode::from(5);
    }
    let net = Net::new(vertices, links);
    let Some(run) = best_of_five(&rt, alloc, &net) else {
        return ExitCode::from(5);
    };
    let _ = println!(rt;
        "vertices {vertices} links {} total {} milliseconds {}",
        run.links, run.total, run.millis
    );
    ExitCode::from(0)
}
