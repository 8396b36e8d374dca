//! The images that a stop may leave.
use crate::volume::Volume;
use row_scripts::Fault;
use std::alloc::Global;

/// Up to so many sectors, all images are made. Of more, these images are made: one sector written, all but one, none, all, and drawn images.
const FEW: u32 = 6;

const RANDOM: u32 = 32;

/// The sectors that waited for a sync at a stop.
#[derive(Drop)]
pub struct Images {
    sectors: Vec<UnsyncedSector>,
}

impl Images {
    /// The sectors that differ in two volumes after the same stop: the one has the stable values, the other the last values.
    pub fn of(alloc: Global, stable: &mut Volume, last: &mut Volume) -> Result<Images, Fault> {
        let mut sectors = Vec::new(alloc);
        let mut one = [0; 4096];
        let mut other = [0; 4096];
        for number in 0..stable.count() {
            stable.read(number, &mut one)?;
            last.read(number, &mut other)?;
            if one != other {
                sectors.push(UnsyncedSector {
                    number,
                    stable: one,
                    last: other,
                })?;
            }
        }
        Ok(Images { sectors })
    }

    fn size(&self) -> u32 {
        u32::try_from(self.sectors.len()).unwrap_or(u32::MAX)
    }

    /// How many images are made.
    pub fn count(&self) -> u32 {
        let size = self.size();
        if size <= FEW {
            1u32.checked_shl(size).unwrap_or(1)
        } else {
            size.saturating_mul(2)
                .saturating_add(2)
                .saturating_add(RANDOM)
        }
    }

    /// Whether a sector has its last value in an image.
    fn is_last(&self, image: u32, place: u32) -> bool {
        let size = self.size();
        if size <= FEW {
            return image.checked_shr(place).unwrap_or(0) % 2 == 1;
        }
        let twice = size.saturating_mul(2);
        if image < size {
            place == image
        } else if image < twice {
            place != image.saturating_sub(size)
        } else if image < twice.saturating_add(2) {
            image == twice
        } else {
            let mixed = image.wrapping_mul(0x9E37_79B1) ^ place.wrapping_mul(0x85EB_CA77);
            (mixed.wrapping_mul(0xC2B2_AE3D) >> 16) % 2 == 1
        }
    }

    /// Leaves a volume in an image.
    pub fn leave(&self, volume: &mut Volume, image: u32) -> Result<(), Fault> {
        let mut place = 0u32;
        for sector in self.sectors.iter() {
            if self.is_last(image, place) {
                volume.put(sector.number, &sector.last)?;
            } else {
                volume.put(sector.number, &sector.stable)?;
            }
            place = place.saturating_add(1);
        }
        Ok(())
    }
}

/// A sector with its two values.
#[derive(Drop)]
struct UnsyncedSector {
    number: u32,
    stable: [u8; 4096],
    last: [u8; 4096],
}
