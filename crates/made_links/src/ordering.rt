//! The children by their ids, and by their parents.

ghost use Rattle.std.specs.Prelude.{IfOk};
ghost use Rattle.made_links.specs.Orders.{AreSorted};

use crate::finding::Child;
use pcg_base::NoMemory;

/// The same children by ascending ids, those of one id as they stood.
///
/// # Errors
///
/// `NoMemory` where there is none to sort them.
pub fn by_id(children: Vec<Child>) -> Result<Vec<Child>, NoMemory>
    ensures { IfOk result (λ v. AreSorted (λ c. c.id) children.items v.items) }
{
    let mut list = children;
    let Ok(()) = list.sort_by_key(|child| child.id.0) else {
        return Err(NoMemory);
    };
    Ok(list)
}

/// The same children by their parents, those of one parent as they stood.
///
/// # Errors
///
/// `NoMemory` where there is none to sort them.
pub fn by_parent(children: Vec<Child>) -> Result<Vec<Child>, NoMemory>
    ensures { IfOk result (λ v. AreSorted (λ c. c.parent) children.items v.items) }
{
    let mut list = children;
    let Ok(()) = list.sort_by_key(|child| child.parent) else {
        return Err(NoMemory);
    };
    Ok(list)
}
