// Memory that calls see, and the requests that they make over it.
ghost use Rattle.std.specs.Prelude.{IfOk, IfSome};
ghost use Rattle.dialogue.specs.Lawful.{IsLawfulRequest};

use dialogue::{Request, View, request_of, shape_of};
use std::alloc::{AllocError, Global};

/// A number above every address: no cell.
pub(crate) const NONE: u32 = 0x1_0000;

/// Memory whose cells hold one byte, but for a `$`, one that cannot be read and one that cannot be written.
#[derive(Clone, Copy)]
pub(crate) struct Cells {
    pub(crate) fill: u8,
    pub(crate) dollar: u32,
    pub(crate) closed: u32,
    pub(crate) locked: u32,
}

impl View for Cells {
    ghost use Rattle.std.specs.Prelude.{◌==◌, cond, not, Some, None};

    ghost byte_at = { λ v at. cond (at == v.closed) None (Some (cond (at == v.dollar) 0x24 v.fill)) };

    ghost is_writable = { λ v at. not (at == v.locked) };

    fn byte(&self, at: u16) -> Option<u8> {
        if u32::from(at) == self.closed {
            None
        } else if u32::from(at) == self.dollar {
            Some(b'$')
        } else {
            Some(self.fill)
        }
    }

    fn writable(&self, at: u16) -> bool {
        u32::from(at) != self.locked
    }
}

/// Open memory with a `$` at 205H.
pub(crate) fn filled(fill: u8) -> Cells {
    Cells {
        fill,
        dollar: 0x205,
        closed: NONE,
        locked: NONE,
    }
}

/// The request of a function with 2 in D and the DMA address 80H, over open memory.
pub(crate) fn request(
    alloc: Global,
    function: u8,
    e: u8,
    fill: u8,
) -> Result<Option<Request>, AllocError>
    ensures { IfOk result (λ r. IfSome r (λ q. IsLawfulRequest q)) }
{
    let view = filled(fill);
    match shape_of(Some(function), Some(2), Some(e), 0x80, &view) {
        Ok(shape) => Ok(Some(request_of(alloc, shape, &view)?)),
        Err(_) => Ok(None),
    }
}
