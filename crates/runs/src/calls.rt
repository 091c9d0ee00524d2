use machine::Grant;

// What a walk may be asked, with the queries Q that its machine can be read by.
#[derive(Drop)]
pub enum Call<Q> {
    Forward(u32),
    Back(u32),
    Sum,
    // Takes a probe, which is then the latest open one.
    Probe,
    // Ends the latest open probe by going back to its sum.
    BringBack,
    // Ends the latest open probe and stays.
    Keep,
    Read(Q),
}

// What a walk answers, with the replies R to a reading.
#[derive(Drop)]
pub enum Answer<R> {
    // To forward, back and bring-back.
    Moved(Grant),
    Sum(i64),
    Probed,
    Kept,
    // No probe is open that bring-back or keep could end.
    NoProbe,
    Read(R),
}
