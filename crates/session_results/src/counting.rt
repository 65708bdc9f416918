//! The faults of sessions, and how many replies were written.

ghost use Rattle.std.specs.Prelude.{◌≡◌, ◌≤◌, ◌+◌, ◌++◌, ℕ, [], length, sum_by, vec_capacity};
ghost use Rattle.session_results.specs.Begun.{faults_told};
ghost use Rattle.session_results.specs.Results.{fault_at, fault_for};

use call_lines::{ClientFault, Fault};
use client_answers::ClientAnswers;
use pcg_base::StreamEnd;

/// The fault that a session ended in.
#[tactic(auto, unfolding(crate::specs::Results::fault_for))]
fn fault_in(failed: bool, end: StreamEnd) -> Option<Fault>
    ensures { result ≡ fault_for failed end }
{
    if failed {
        return Some(Fault::WriteFault);
    }
    match end {
        StreamEnd::Whole => None,
        StreamEnd::Broken => Some(Fault::ReadFault),
        StreamEnd::TooLong => Some(Fault::TooLong),
    }
}

/// Puts a client's fault behind others, if its session ended in one.
fn put_fault(faults: &mut Vec<ClientFault>, client: u32, failed: bool, end: StreamEnd)
    requires { length faults.old.items + 1 ≤ vec_capacity faults.old }
    ensures items { faults.new.items ≡ faults.old.items ++ fault_at client (fault_for failed end) }
    ensures room { vec_capacity faults.new ≡ vec_capacity faults.old }
{
    if let Some(fault) = fault_in(failed, end) {
        faults.push_reserved(ClientFault { client, fault });
    }
}

/// Puts the faults of all clients into an empty list with room for them.
pub(crate) fn put_faults<K: Drop>(
    faults: &mut Vec<ClientFault>,
    answers: &[ClientAnswers<K>],
    ends: &[StreamEnd],
)
    requires few { length answers.now ≤ 64 }
    requires each { length ends.now ≡ length answers.now }
    requires none { faults.old.items ≡ [] }
    requires room { length answers.now ≤ vec_capacity faults.old }
    ensures { faults.new.items ≡ faults_told 1 answers.now ends.now }
{
    for k in 0..answers.len() {
        put_fault(faults, k as u32 + 1, answers[k].failed, ends[k]);
    }
}

/// How many replies were written.
pub(crate) fn line_count<K: Drop>(answers: &[ClientAnswers<K>]) -> u64
    requires { length answers.now ≤ 64 }
    ensures { result ≡ sum_by (λ x. x.lines) answers.now }
{
    let mut count = 0;
    for each in answers {
        count += each.lines as u64;
    }
    count
}

/// How many of them refuse their line.
pub(crate) fn refused_count<K: Drop>(answers: &[ClientAnswers<K>]) -> u64
    requires { length answers.now ≤ 64 }
    ensures { result ≡ sum_by (λ x. x.refused) answers.now }
{
    let mut count = 0;
    for each in answers {
        count += each.refused as u64;
    }
    count
}
