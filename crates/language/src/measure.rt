// What is asked of a type at each of its sub-terms, kept beside its cell: its height, and how many Ns stand in it.

#[derive(Clone, Copy, PartialEq, Eq, Debug)]
pub(crate) struct Measure {
    pub(crate) height: usize,
    pub(crate) naturals: u128,
}
