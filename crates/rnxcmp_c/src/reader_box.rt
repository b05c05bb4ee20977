//! A reader's box in the memory of a C program.

ghost use Rattle.std.specs.Prelude.{◌≡◌, List, [], ◌∷◌};
ghost use Rattle.rnxcmp_c.specs.ReaderBoxes.{reader_box_owns, held_coded};
ghost use Rattle.rnxcmp_c.specs.declared.reader.Reader.{Reader};

use crate::loose::Loose;
use crate::reader::Reader;
use std::alloc::Global;
use std::marker::Model;

/// The address of a box, or null.
#[repr(C)]
#[derive(Drop)]
pub struct ReaderBox {
    at: *mut u8,
    pub ghost held: { List Reader } by { held_coded },
}

impl Model for ReaderBox {
    ghost also_owns = { λ p. reader_box_owns p.at p.held };
}

impl ReaderBox {
    /// Returns a box that holds nothing: a null address.
    pub(crate) fn empty() -> ReaderBox
        ensures { result.held ≡ [] }
    {
        ReaderBox {
            at: std::ptr::null_mut(),
        }
    }

    /// Returns the address of a box that was taken apart.
    pub(crate) fn from_loose(loose: Loose<Reader, Global>) -> ReaderBox
        ensures { result.held ≡ loose.value ∷ [] }
    {
        let Loose { at, alloc: _ } = loose;
        ReaderBox { at: at as *mut u8 }
    }

    /// Returns the box that is held, taken apart, with its allocator `alloc`.
    pub(crate) fn into_loose(self, alloc: Global) -> Loose<Reader, Global>
        requires { (value : Reader) × (self.held ≡ value ∷ []) }
        ensures { self.held ≡ result.value ∷ [] }
    {
        let ReaderBox { at } = self;
        Loose {
            at: at as *mut Reader,
            alloc,
        }
    }
}
