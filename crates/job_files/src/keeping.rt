//! Files are kept back.

ghost use Rattle.std.specs.Prelude.{◌≡◌, ◌≤◌, ℕ, List, length, map, true};
ghost use Rattle.std.specs.List.{AllByRecursion};
ghost use Rattle.pcg_base.specs.States.{StaysIn, StaysOut};
ghost use Rattle.job_files.specs.Places.{EachStep, KeepsIn, KeepsOut};
ghost use Rattle.job_files.specs.Clients.{kept_of};

use client_answers::ClientAnswers;
use pcg_base::Place;
use pcg_words::Name;

/// Keeps a source back at its name.
pub(crate) fn keep_request<P: Place>(place: &mut P, name: &Name, source: P::In)
    requires opened { (P.state place.old).opened_in name.now ≡ true }
    ensures step { KeepsIn name.now (P.In.left source, P.In.faults source) (P.state place.old)
        (P.state place.new) }
    ensures stays_in { StaysIn (P.state place.old) (P.state place.new) }
    ensures stays_out { StaysOut (P.state place.old) (P.state place.new) }
{
    place.keep_in(name.text.as_str(), source);
}

/// Keeps a client's sink back at its name.
fn keep_answer<P: Place>(place: &mut P, name: &Name, answers: ClientAnswers<P::Out>)
where
    P::Out: Drop,
    requires opened { (P.state place.old).opened_out name.now ≡ true }
    ensures step { KeepsOut name.now (kept_of P.Out.state answers) (P.state place.old)
        (P.state place.new) }
    ensures stays_in { StaysIn (P.state place.old) (P.state place.new) }
    ensures stays_out { StaysOut (P.state place.old) (P.state place.new) }
{
    let ClientAnswers { sink, .. } = answers;
    place.keep_out(name.text.as_str(), sink);
}

/// Keeps sources back at their names, in order. It takes no memory and can't fail.
pub fn keep_requests<P: Place>(place: &mut P, names: &[Name], sources: Vec<P::In>)
where
    P::In: Drop,
    requires enough { length sources.items ≤ length names.now }
    requires opened { AllByRecursion (λ n. (P.state place.old).opened_in n ≡ true) names.now }
    ensures each { EachStep KeepsIn names.now
        (map (λ x. (P.In.left x, P.In.faults x)) sources.items) (P.state place.old)
        (P.state place.new) }
    ensures stays { StaysOut (P.state place.old) (P.state place.new) }
{
    let mut at = 0;
    for source in sources {
        keep_request(place, &names[at], source);
        at += 1;
    }
}

/// Keeps the sinks of answers back at their names, in order. It takes no memory and can't fail.
pub fn keep_answers<P: Place>(place: &mut P, names: &[Name], answers: Vec<ClientAnswers<P::Out>>)
where
    P::Out: Drop,
    requires enough { length answers.items ≤ length names.now }
    requires opened { AllByRecursion (λ n. (P.state place.old).opened_out n ≡ true) names.now }
    ensures each { EachStep KeepsOut names.now (map (kept_of P.Out.state) answers.items)
        (P.state place.old) (P.state place.new) }
    ensures stays { StaysIn (P.state place.old) (P.state place.new) }
{
    let mut at = 0;
    for client in answers {
        keep_answer(place, &names[at], client);
        at += 1;
    }
}
