// A lent pool whose header says the sizes of a store, and that has the words for them.
ghost use Rattle.std.specs.Prelude.{◌≡◌, IfSome, IfNone, None, Some};
ghost use Rattle.layout.specs.Places.{Spans};
ghost use Rattle.layout.specs.Header.{header_of};

use super::headers::header_of;
use rulebook::Sizes;

/// A pool that is only read. Clone and Copy alone: nothing compares or prints one, and each derived method is one more to prove.
#[derive(Clone, Copy)]
pub struct Pool<'a> {
    pub words: &'a [u32],
    pub sizes: Sizes,
    pub ghost spans: { Spans sizes words.now },
}

impl<'a> Pool<'a> {
    /// The pool of these words, where words 0 to 5 describe one.
    pub fn of(words: &'a [u32]) -> Option<Pool<'a>>
        ensures none { IfNone result (header_of words.now ≡ None) }
        ensures some { IfSome result (λ pool. (header_of words.now ≡ Some pool.sizes) × (pool.words.now ≡ words.now)) }
    {
        let sizes = header_of(words)?;
        Some(Pool { words, sizes })
    }
}

/// A pool that may be written. Drop alone: it holds a `&mut`, which is not copied.
#[derive(Drop)]
pub struct PoolMut<'a> {
    pub words: &'a mut [u32],
    pub sizes: Sizes,
    pub ghost spans: { Spans sizes words.now },
}

impl<'a> PoolMut<'a> {
    /// The words that header_of has found to be a pool.
    pub fn new(words: &'a mut [u32], sizes: Sizes) -> PoolMut<'a>
        requires { Spans sizes words.old }
        ensures words { result.words.now ≡ words.old }
        ensures sizes { result.sizes ≡ sizes }
        ensures same_reference { result.words.ghost_name ≡ words.entry.ghost_name }
    {
        PoolMut { words, sizes }
    }

    /// The same pool, to be read.
    pub fn as_pool(&self) -> Pool<'_>
        ensures words { result.words.now ≡ self.now.words.now }
        ensures sizes { result.sizes ≡ self.now.sizes }
    {
        let Sizes { n, h, t, b } = self.sizes;
        Pool {
            words: self.words,
            sizes: Sizes { n, h, t, b },
        }
    }
}
