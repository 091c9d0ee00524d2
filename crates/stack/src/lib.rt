// Stacks over memory that the host lends: one generic stack, and 64 shelves that are such stacks.
#![tactic(auto)]

mod edits;
mod shelving;
mod stacks;

pub use edits::Edit;
pub use shelving::Shelves;
pub use stacks::Stack;

#[cfg(test)]
mod tests {
    use super::*;
    use machine::Reason;

    #[test]
    fn a_full_stack_refuses(rt: HostRuntime) {
        let mut memory = [0u8; 4];
        let mut stack = Stack::new(&mut memory, 2);
        assert_eq!(rt; stack.room(), 2);
        assert_eq!(rt; stack.push(1), Ok(()));
        assert_eq!(rt; stack.push(2), Ok(()));
        assert_eq!(rt; stack.push(3), Err(Reason::Full));
        assert_eq!(rt; stack.second(), Some(1));
        assert_eq!(rt; stack.as_slice().len(), 2);
        assert_eq!(rt; stack.pop(), Some(2));
        assert_eq!(rt; stack.room_for(2), Err(Reason::Full));
        assert_eq!(rt; stack.pop(), Some(1));
        assert_eq!(rt; stack.pop(), None);
        assert!(rt; stack.is_empty());
    }

    #[test]
    fn edits_replace_split_and_join(rt: HostRuntime) {
        let mut memory = [0u8; 2];
        let mut stack = Stack::new(&mut memory, 9);
        assert_eq!(rt; stack.edit(Edit::Replace(5)), Ok(()));
        assert_eq!(rt; stack.top(), None);
        assert_eq!(rt; stack.push(5), Ok(()));
        assert_eq!(rt; stack.edit(Edit::Split(7, 8)), Ok(()));
        assert_eq!(rt; stack.top(), Some(8));
        assert_eq!(rt; stack.second(), Some(7));
        assert_eq!(rt; stack.edit(Edit::Split(1, 2)), Err(Reason::Full));
        assert_eq!(rt; stack.edit(Edit::Join(9)), Ok(()));
        assert_eq!(rt; stack.top(), Some(9));
        assert_eq!(rt; stack.height(), 1);
    }

    #[test]
    fn a_shelf_that_misses_a_cell_is_full(rt: HostRuntime) {
        let mut memory = [0u8; 127];
        let mut shelves = Shelves::new(&mut memory);
        assert_eq!(rt; shelves.complete(), 1);
        assert_eq!(rt; shelves.push(0, 1), Err(Reason::Full));
        assert_eq!(rt; shelves.push(1, 1), Ok(()));
        assert_eq!(rt; shelves.push(2, 1), Err(Reason::Full));
        assert_eq!(rt; shelves.push(65, 1), Err(Reason::Full));
        assert_eq!(rt; shelves.count(), 1);
        assert_eq!(rt; shelves.room_for(1, 63), Ok(()));
        assert_eq!(rt; shelves.room_for(1, 64), Err(Reason::Full));
        assert_eq!(rt; shelves.pop(2), None);
        assert_eq!(rt; shelves.pop(1), Some(1));
        assert!(rt; shelves.is_empty());
    }
}
