//! Faults of a header and of writing.
ghost use Rattle.std.specs.Prelude.{◌≡◌};
ghost use Rattle.rinex_file.specs.declared.header.fault.HeadFault.TheVariants as faults;

use crate::header::fields::HeaderField;
use devices::DeviceFailed;
use std::fmt::{self, Debug, Display, Formatter, Write};
use thiserror::Error;

/// Why a header or an epoch was refused or not written. It is displayed, and printed by `Debug`, by
/// its name and the name of the field.
#[derive(Clone, Copy, PartialEq, Eq, Error)]
pub enum HeadFault {
    /// The text has more bytes than columns, not counting trailing blanks.
    #[error("TooLong {}", .0.name())]
    TooLong(HeaderField),
    /// The text has a byte outside 0x20 to 0x7E.
    #[error("NotPrintable {}", .0.name())]
    NotPrintable(HeaderField),
    /// The writer failed.
    #[error("Write")]
    Write,
}

impl Debug for HeadFault {
    fn fmt<W: Write>(&self, f: &mut Formatter<W>) -> fmt::Result {
        Display::fmt(self, f)
    }
}

impl From<DeviceFailed> for HeadFault {
    ghost from_gives = { λ _ fault. fault ≡ faults.Write };

    fn from(_failed: DeviceFailed) -> HeadFault {
        HeadFault::Write
    }
}
