// Which way a walk's sum goes.
#[derive(Clone, Copy)]
pub enum Heading {
    Up,
    Down,
}
