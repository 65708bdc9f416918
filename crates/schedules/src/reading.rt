//! The numbers of a schedule.

ghost use Rattle.std.specs.Prelude.{◌≡◌, ◌<◌, ◌-◌, ◌^◌, ◌++◌, ◌∷◌, [], Ok, length, IfOk, IfErr};
ghost use Rattle.schedules.specs.Schedules.{Answers, client_of, schedule_of};

use crate::words::split_word;
use node_ids::read_digits;
use pcg_base::NoMemory;
use std::alloc::Global;

/// Why a text is no schedule.
#[derive(Clone, Copy, PartialEq, Eq, Debug, Drop)]
pub enum ScheduleError {
    /// This word, counted from 1, is the first that is no client's number.
    Bad {
        /// Its number.
        word: u64,
    },
    /// Memory ran out.
    NoMemory,
}

/// The client whose number a word is.
#[tactic(auto, unfolding(crate::specs::Schedules::client_of))]
fn client_of(word: &[u8], clients: u32) -> Option<u32>
    ensures { result ≡ client_of clients word.now }
{
    let Some(number) = read_digits(word) else {
        return None;
    };
    if number == 0 {
        return None;
    }
    if number > clients as u64 {
        return None;
    }
    Some(number as u32)
}

/// Puts a number behind others.
fn put(numbers: &mut Vec<u32>, number: u32) -> Result<(), NoMemory>
    ensures { IfOk result (λ u. numbers.new.items ≡ numbers.old.items ++ number ∷ []) }
{
    let Ok(()) = numbers.push(number) else {
        return Err(NoMemory);
    };
    Ok(())
}

/// The clients' numbers of a schedule, in order. Each is from 1 to `clients`. Time is linear in the
/// text.
///
/// # Errors
///
/// `Bad` with the first word that is no client's number, and `NoMemory` where there is none for the
/// list.
pub fn read_schedule(alloc: Global, text: &[u8], clients: u32) -> Result<Vec<u32>, ScheduleError>
    requires size { length text.now < 2 ^ 64 - 1 }
    ensures ok { IfOk result (λ v. schedule_of clients text.now ≡ Ok v.items) }
    ensures bad { IfErr result (Answers (schedule_of clients text.now)) }
{
    let mut numbers = Vec::new(alloc);
    let mut rest = text;
    let mut word = 0;
    while let Some((first, next)) = split_word(rest) {
        word += 1;
        let Some(client) = client_of(first, clients) else {
            return Err(ScheduleError::Bad { word });
        };
        let Ok(()) = put(&mut numbers, client) else {
            return Err(ScheduleError::NoMemory);
        };
        rest = next;
    }
    Ok(numbers)
}
