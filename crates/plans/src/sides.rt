// The two ways up from the ends of a path.
ghost use Rattle.std.specs.Prelude.{◌≡◌, ◌≤◌, false, ◌&&◌, slice_index_or};

/// For each tag, whether it is met on going up from the first end of a path, and whether from the last one: by tag, and the place 0
/// is not used. These are two arrays and not one of pairs, since each is what one way up answers.
#[derive(Drop)]
pub(crate) struct Sides {
    pub(crate) first: [bool; 257],
    pub(crate) last: [bool; 257],
}

impl Sides {
    /// Whether both ways up meet a tag.
    pub(crate) fn both(&self, tag: usize) -> bool
        requires { tag ≤ 256 }
        ensures { result ≡ (slice_index_or self.now.first tag false && slice_index_or self.now.last tag false) }
    {
        self.first[tag] && self.last[tag]
    }
}
