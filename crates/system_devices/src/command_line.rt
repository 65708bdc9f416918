use pcg_base::NoMemory;
use std::alloc::Global;
use std::env::FillError;
use std::rt::Env;

/// A word of the command line as it stands, UTF-8 or not, where there is one of that number.
fn word<R: Env>(rt: &R, alloc: Global, number: usize) -> Result<Option<Vec<u8>>, NoMemory> {
    for power in 8..40u32 {
        let Ok(mut bytes) = vec![in alloc; 0u8; 1usize << power] else {
            return Err(NoMemory);
        };
        match rt.arg(number, &mut bytes) {
            Ok(length) => {
                bytes.truncate(length);
                return Ok(Some(bytes));
            }
            Err(FillError::NotPresent) => return Ok(None),
            Err(FillError::TooLong) => {}
        }
    }
    Err(NoMemory)
}

/// The words of the command line that stand after the program's name.
pub fn words<R: Env>(rt: &R, alloc: Global) -> Result<Vec<Vec<u8>>, NoMemory> {
    let mut all = Vec::new(alloc);
    for number in 1..usize::MAX {
        let Some(next) = word(rt, alloc, number)? else {
            break;
        };
        if all.push(next).is_err() {
            return Err(NoMemory);
        }
    }
    Ok(all)
}
