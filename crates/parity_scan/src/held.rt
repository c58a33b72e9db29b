// Where the shard of each place lies among the packed frames.
ghost use Rattle.std.specs.Prelude.{◌<◌};

// Where a shard lies.
#[derive(Clone, Copy)]
pub struct Span {
    pub at: usize,
    pub size: usize,
    pub ghost some: { 0 < size },
}

// For each place, where the shard that is held lies; None where none is.
pub type Held = [Option<Span>; 12];
