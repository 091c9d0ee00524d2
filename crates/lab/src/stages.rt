use machine::Reason;

// What a listing shows next.
#[derive(Clone, Copy)]
pub enum Stage {
    // The line of the state, with so many steps left to take.
    Lines(u32),
    // How the walk ended: with the reason, or with none after the last step that a listing takes.
    End(Option<Reason>),
    // Nothing more.
    Over,
}
