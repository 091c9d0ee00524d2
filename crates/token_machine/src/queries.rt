use machine::Reason;

// What a walk of a token may be asked to read.
#[derive(Drop)]
pub enum Query {
    // The token's line, in a buffer of so many bytes: a size asked for, with no buffer beside it.
    Show(usize),
    Number,
}

#[derive(Drop)]
pub enum Reply {
    // The line's length or why it is not there, and the buffer: all of it is what is read, also what stands behind the line.
    Shown(Result<usize, Reason>, Vec<u8>),
    Number(Result<u32, Reason>),
}
