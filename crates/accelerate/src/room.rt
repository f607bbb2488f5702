// Scratch for two assignments of up to N jobs, on which passes are tried. What they hold between calls says nothing. They are arrays,
// since the library takes no heap.
#[derive(Drop)]
pub struct Room<const N: usize> {
    pub near: [i32; N],
    pub far: [i32; N],
}

// How the watch on a run's passes stands: the fingerprints of the passes seen, the number of them that the next look waits for, and the
// number of passes to let go unwatched. The fingerprints stand in an array of M with their number beside it, since the library takes no heap.
#[derive(Drop)]
pub struct Watch<const M: usize> {
    pub fingerprints: [u16; M],
    pub seen: usize,
    pub look: usize,
    pub rest: usize,
}
