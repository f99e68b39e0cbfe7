//! A device in memory that never fails. It keeps no calls, so it isn't honest and tells nothing of
//! crashes: it shows that no caller answers a fault by itself.
ghost use Rattle.std.specs.Prelude.{◌≡◌, IfOk, replicate};
ghost use Rattle.disk_trait.specs.Fakes.{plain_device, plain_device_is_sound};

use crate::bytes::{copy_out, overwrite};
use crate::{Disk, Failed, Memory};
use std::alloc::Global;
use std::marker::Model;

#[derive(Drop)]
pub struct SureDisk {
    bytes: Vec<u8>,
}

impl Model for SureDisk {
    ghost use Rattle.std.specs.Prelude.{List, ℕ};

    ghost Value = { List ℕ };

    ghost view = { λ d. d.bytes.items };
}

impl SureDisk {
    /// A device of so many zeros.
    pub fn new(alloc: Global, size: u64) -> Result<SureDisk, Memory>
        ensures { IfOk result (λ disk. disk ≡ replicate size 0) }
    {
        Ok(SureDisk {
            bytes: vec![in alloc; 0u8; size as usize]?,
        })
    }
}

impl Disk for SureDisk {
    ghost device = { plain_device };

    ghost fails = { λ _ _ _ _. Unit {0} };

    ghost sound = { plain_device_is_sound };

    fn len(&self) -> u64 {
        self.bytes.len() as u64
    }

    fn read_at(&mut self, at: u64, out: &mut [u8]) -> Result<(), Failed> {
        copy_out(&self.bytes, at as usize, out);
        Ok(())
    }

    fn write_at(&mut self, at: u64, bytes: &[u8]) -> Result<(), Failed> {
        overwrite(&mut self.bytes, at as usize, bytes);
        Ok(())
    }

    fn sync(&mut self) -> Result<(), Failed> {
        Ok(())
    }
}
