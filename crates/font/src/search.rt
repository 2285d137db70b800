ghost use Rattle.std.specs.Prelude.{◌≡◌, Bool};
ghost use Rattle.font.specs.Search.{first_that};

// A test of one element. A closure might ask something of its caller; this asks nothing.
pub trait Test<T> {
    ghost passes: { Self → T → Bool };

    fn test(&self, x: &T) -> bool
        ensures { result ≡ passes self.now x.now };
}

// The first element that passes.
pub fn first_that<T: Copy, Q: Test<T>>(items: &[T], q: &Q) -> Option<T>
    ensures { result ≡ first_that (Q.Test.passes q.now) items.now }
{
    items.iter().find(|x| q.test(x)).copied()
}
