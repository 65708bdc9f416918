//! The program `pcg`: a proofreading server over files.
//!
//! What it prints and which status it ends with is decided by `pcg_serve`, whose contract says so
//! of any place, clock, gate and sink. This crate hands it those of the system, which stand in
//! `system_devices`. If not all was done it also tells a person so on standard error: how the program is
//! used, or which file has which fault (`fault_texts`).
#![tactic(auto)]

use fault_texts::{LastLine, tell};
use pcg_base::{OpenGate, write_all};
use pcg_serve::Status;
use std::process::ExitCode;
use system_devices::{Folder, Outgoing, SystemClock, words};

fn main(rt: HostRuntime) -> ExitCode {
    let alloc = rt.alloc();
    let mut out = LastLine::new(Outgoing::new(rt.stdout()));
    let mut told = Outgoing::new(rt.stderr());
    let Ok(words) = words(&rt, alloc) else {
        let _ = write_all(&mut out, b"{\"fault\":\"NoMemory\"}\n");
        let _ = tell(&[], Status::NoMemory, &out, &mut told);
        return ExitCode::from(Status::NoMemory.code());
    };
    let mut place = Folder::new(&rt, alloc);
    let clock = SystemClock::new(&rt);
    let status = pcg_serve::run(alloc, &words, &mut place, &clock, &OpenGate, &mut out);
    let _ = tell(&words, status, &out, &mut told);
    ExitCode::from(status.code())
}
