// Bytes that are stored once and shared.
ghost use Rattle.std.specs.Prelude.{◌≡◌, ℕ, List, Some, None, IfOk, IfSome, IfNone};

use smallvec::SmallVec;
use std::alloc::{AllocError, Global};
use std::marker::Model;
use std::sync::Arc;

/// The bytes of a record, a packet or a file, stored once, however often they are shared. Contracts see the list of them. It
/// takes 8 bytes. Up to 16 shared bytes take one allocation, more of them two.
#[derive(Debug, Drop)]
pub struct SharedBytes {
    bytes: Arc<SmallVec<u8, 16>>,
}

impl Model for SharedBytes {
    ghost use Rattle.std.specs.Prelude.{List, ℕ};
    ghost use Rattle.std.specs.Arc.{arc_value};

    ghost Value = { List ℕ };

    ghost view = { λ shared. (arc_value shared.bytes).items };
}

impl SharedBytes {
    /// Stores the bytes, which are moved, and copied only where they have room for no more than 16. It takes memory for the
    /// counts of those that share them.
    pub fn new(bytes: Vec<u8>) -> Result<SharedBytes, AllocError>
        ensures { IfOk result (λ shared. shared ≡ bytes.items) }
    {
        let alloc = *bytes.allocator();
        let bytes = Arc::new(alloc, SmallVec::from_vec(bytes))?;
        Ok(SharedBytes { bytes })
    }

    /// A copy of these bytes.
    pub fn from_slice(alloc: Global, bytes: &[u8]) -> Result<SharedBytes, AllocError>
        ensures { IfOk result (λ shared. shared ≡ bytes.now) }
    {
        let bytes = Arc::new(alloc, SmallVec::from_slice(alloc, bytes)?)?;
        Ok(SharedBytes { bytes })
    }

    /// The bytes, in constant time.
    pub fn as_slice(&self) -> &[u8]
        ensures { result.now ≡ self.now }
    {
        self.bytes.as_slice()
    }

    /// The same bytes once more, in constant time. No byte is copied and nothing is allocated; an error comes only where
    /// those that share the bytes can't be counted on.
    pub fn share(&self) -> Result<SharedBytes, AllocError>
        ensures { IfOk result (λ shared. shared ≡ self.now) }
    {
        let bytes = self.bytes.clone()?;
        Ok(SharedBytes { bytes })
    }
}

/// Where what is read comes from: an allocator, and the shared bytes in which it stands, if it does.
#[derive(Clone, Copy)]
pub struct Origin<'a> {
    pub alloc: Global,
    within: Option<(&'a SharedBytes, usize)>,
}

impl<'a> Origin<'a> {
    ghost use Rattle.wire_core.specs.Origin.{shared_up_to, StandsIn};

    /// Bytes of their own: of these nothing is shared.
    pub fn new(alloc: Global) -> Origin<'a>
        ensures { shared_up_to result ≡ None }
    {
        Origin {
            alloc,
            within: None,
        }
    }

    /// The shared bytes up to this place.
    pub fn within(alloc: Global, shared: &'a SharedBytes, end: usize) -> Origin<'a>
        ensures { shared_up_to result ≡ Some (shared.now, end) }
    {
        Origin {
            alloc,
            within: Some((shared, end)),
        }
    }

    /// The shared bytes, and from where to where this part of them stands, so many bytes before their place; nothing where
    /// other bytes stand there, or none are shared.
    pub fn find(self, part: &[u8], behind: usize) -> Option<(&'a SharedBytes, usize, usize)>
        ensures found { IfSome result (λ found.
            StandsIn (shared_up_to self.entry) part.now behind found.0.now found.1 found.2) }
        ensures none { IfNone result ((shared : List ℕ) (start end : ℕ) →
            StandsIn (shared_up_to self.entry) part.now behind shared start end → ⊥) }
    {
        let (shared, end) = self.within?;
        let end = end.checked_sub(behind)?;
        let start = end.checked_sub(part.len())?;
        if shared.as_slice().get(start..end)? != part {
            return None;
        }
        Some((shared, start, end))
    }
}
