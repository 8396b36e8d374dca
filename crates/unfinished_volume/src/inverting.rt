//! Sector 0 with an inverted first byte.
ghost use Rattle.std.specs.Prelude.{◌≡◌};
ghost use Rattle.unfinished_volume.specs.Inverted as spec;
ghost use Rattle.unfinished_volume.specs.Hidden as hidden;

/// The byte with which each mark begins.
const MARK_LETTER: u8 = b'C';

/// A sector with its first byte inverted.
pub(crate) fn inverted_sector(bytes: &[u8; 4096]) -> [u8; 4096]
    ensures inverted { result ≡ spec.inverted_sector bytes.now }
    ensures back { spec.inverted_sector result ≡ bytes.now }
{
    let mut sector = *bytes;
    sector[0] = 255 - sector[0];
    sector
}

/// Whether a sector is neither zeros nor a root, by its first byte.
pub(crate) fn hides_root(bytes: &[u8; 4096]) -> bool
    ensures { result ≡ hidden.hides_root bytes.now }
{
    bytes[0] != 0 && bytes[0] != MARK_LETTER
}
