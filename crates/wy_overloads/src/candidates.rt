//! The methods that a search looks at. It tests each, since others than what it looks for may be among them.

/// Methods by their numbers: some by a name, and the constructors of a class.
#[derive(Clone, Copy)]
pub struct Candidates<'a> {
    pub by_name: &'a [u32],
    pub constructors: &'a [u32],
}

impl Candidates<'_> {
    ghost use Rattle.std.specs.Prelude.{◌≡◌, ◌<◌, Some, length, slice_get};
    ghost use Rattle.wy_overloads.specs.Candidates.{numbers_of};

    pub fn len(&self) -> usize
        ensures { result ≡ length (numbers_of self.now) }
    {
        self.by_name.len() + self.constructors.len()
    }

    /// The number of the method at this place.
    pub fn at(&self, i: usize) -> u32
        requires { i < length (numbers_of self.now) }
        ensures { slice_get (numbers_of self.now) i ≡ Some result }
    {
        if i < self.by_name.len() {
            self.by_name[i]
        } else {
            self.constructors[i - self.by_name.len()]
        }
    }
}
