// Bytes by their addresses.
ghost use Rattle.std.specs.Prelude.{◌≡◌, [], IfOk, OnErr, OnOk};
ghost use Rattle.std.specs.BTreeMap.{insert_entry};
ghost use Rattle.std.specs.List.Sorted.{IsStrictlyIncreasing};
ghost use Rattle.std.specs.Map.{keys_of};
ghost use Rattle.std.specs.Ordering.{nat_cmp};

use std::alloc::{AllocError, Global};
use std::marker::Model;

/// Cells with a byte each, seen as addresses and bytes that ascend by their addresses.
pub struct ByteCells {
    // the byte of each address, up to the last that has one
    bytes: Vec<Option<u8>>,
}

// Written out, so that letting one go is one call wherever it is done.
impl Drop for ByteCells {
    fn drop(self) {
        let ByteCells { bytes: _bytes } = self;
    }
}

impl Model for ByteCells {
    ghost use Rattle.std.specs.Prelude.{List, ℕ, ◌≤◌, length};
    ghost use Rattle.base.specs.Addressed.{byte_cells_from};

    ghost Value = { List (ℕ × ℕ) };

    ghost view = { λ c. byte_cells_from 0 c.bytes.items };

    ghost invariant = { λ c. length c.bytes.items ≤ 65536 };
}

impl ByteCells {
    /// No cells.
    pub fn new(alloc: Global) -> ByteCells
        ensures { result ≡ [] }
    {
        ByteCells {
            bytes: Vec::new(alloc),
        }
    }

    /// Puts a byte to its place; it replaces an earlier one of the same address.
    pub fn put(&mut self, at: u16, byte: u8) -> Result<(), AllocError>
        ensures put { OnOk result (self.new ≡ insert_entry nat_cmp self.old at byte) }
        ensures unchanged { OnErr result (self.new ≡ self.old) }
    {
        let place = usize::from(at);
        if self.bytes.len() <= place {
            self.bytes.resize(place + 1, None)?;
        }
        self.bytes[place] = Some(byte);
        Ok(())
    }

    /// The cells, as they are seen.
    pub fn into_vec(self, alloc: Global) -> Result<Vec<(u16, u8)>, AllocError>
        ensures cells { IfOk result (λ list. list.items ≡ self) }
        ensures ascend { IfOk result (λ list. IsStrictlyIncreasing (keys_of list.items)) }
    {
        let ByteCells { bytes } = self;
        let mut cells = Vec::new(alloc);
        for (at, byte) in bytes.iter().enumerate() {
            if let Some(byte) = byte {
                cells.push((at as u16, *byte))?;
            }
        }
        Ok(cells)
    }
}
