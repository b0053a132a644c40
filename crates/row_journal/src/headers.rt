//! The header of a half that a snapshot began.
ghost use Rattle.std.specs.Prelude.{◌≡◌, ◌↔◌, take, drop, Some};
ghost use Rattle.row_journal.specs.Forms.{snapshot_mark, number};
ghost use Rattle.row_journal.specs.declared.version.Version.{Version as version_type};
ghost use Rattle.row_journal.specs.Images.{HasHeader};

use crate::version::Version;
use crate::word::number;

/// What a born half's header says.
#[derive(Clone, Copy, Debug, PartialEq, Eq)]
pub struct Header {
    pub version: Version,
    /// How many snapshots came before it and with it.
    pub epoch: u64,
}

/// The header with which the half is born; none where it isn't.
pub fn read_header(half: &[u8]) -> Option<Header>
    ensures { HasHeader half.now result }
{
    if half.len() <= 17 || half[16] != 1 {
        return None;
    }
    let version = snapshot_version(&half[..8])?;
    let epoch = number(&half[8..16]);
    Some(Header { version, epoch })
}

// The version that a snapshot's first bytes tell.
fn snapshot_version(mark: &[u8]) -> Option<Version>
    ensures { (v : version_type) → (result ≡ Some v) ↔ (mark.now ≡ snapshot_mark v) }
{
    if mark == b"HEATS001".as_slice() {
        Some(Version::One)
    } else if mark == b"HEATS002".as_slice() {
        Some(Version::Two)
    } else {
        None
    }
}
